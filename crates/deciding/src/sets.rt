// Sets and conditions worked out on a stack of bits, the top lowest. One word holds the stack of the largest set, so no table is filled for it.
ghost use Rattle.std.specs.Prelude.{◌≡◌, ◌^◌, ◌<◌, ◌≤◌, true, length, Some, slice_index_or};
ghost use Rattle.rbac.specs.Roles.{roles_of};
ghost use Rattle.hierarchy.specs.Edges.{no_roles};
ghost use Rattle.trees.specs.Trees.{balanced, decode};
ghost use Rattle.tables.specs.View.{set_of, condition_of, or_nobody};
ghost use Rattle.deciding.specs.Masked.{member_test, meets_test, down_of, leaf_says, in_test, pushed};

use crate::masks::Masks;
use rbac::{RoleSet, User};
use soundness::AssignRule;
use tables::Needs;
use trees::{Node, UserTree};

// The set at a place, and no role past the last.
fn set_at(sets: &[RoleSet], place: usize) -> RoleSet
    ensures { result ≡ slice_index_or sets.now place no_roles }
{
    sets.get(place).copied().unwrap_or(RoleSet::from_word(0))
}

/// Whether one of these roles is in the set at this place; no role is in a set past the last.
pub fn member(roles: RoleSet, sets: &[RoleSet], place: usize) -> bool
    ensures { result ≡ member_test (down_of sets.now) (roles_of roles) place }
{
    roles.meets(set_at(sets, place))
}

// What a leaf says of a user with these roles; of nobody in particular, only roles say something.
fn leaf(node: Node, masks: &Masks, who: Option<User>, roles: RoleSet) -> bool
    ensures { result ≡ leaf_says masks.now.seniors masks.now.givers who (roles_of roles) node }
{
    match (node, who) {
        (Node::Role(r), _) => member(roles, &masks.seniors, r as usize),
        (Node::Permission(p), Some(_)) => member(roles, &masks.givers, p as usize),
        (Node::User(u), Some(user)) => user.number() == u,
        _ => false,
    }
}

// One node on the stack; what a leaf says is worked out before.
fn push(node: Node, leaf: bool, stack: u64) -> u64
    requires { stack < 2 ^ 63 }
    ensures { result ≡ pushed node leaf stack }
{
    match node {
        Node::Or => stack / 4 * 2 + (stack / 2 % 2).max(stack % 2),
        Node::And => stack / 4 * 2 + (stack / 2 % 2).min(stack % 2),
        _ => if leaf { stack * 2 + 1 } else { stack * 2 },
    }
}

// Whether a user with these roles is in the set that the nodes say, where they are a set's.
fn worked(nodes: &[Node], masks: &Masks, who: Option<User>, roles: RoleSet) -> bool
    requires { length nodes.now ≤ 63 }
    ensures { balanced 0 nodes.now ≡ true → result ≡ in_test masks.now.seniors masks.now.givers who (roles_of roles) (or_nobody (decode nodes.now)) }
{
    let mut stack: u64 = 0;
    for node in nodes {
        stack = push(*node, leaf(*node, masks, who, roles), stack);
    }
    stack % 2 == 1
}

/// Whether the user, with these roles, is in the set, by masks of seniors and of givers.
pub fn in_set(set: &UserTree, masks: &Masks, user: User, roles: RoleSet) -> bool
    ensures { result ≡ in_test masks.now.seniors masks.now.givers (Some user) (roles_of roles) (set_of set.now.nodes) }
{
    worked(set.nodes.entries(), masks, Some(user), roles)
}

/// Whether a user with these roles meets the rule's condition, by masks of seniors. A condition that asks for nothing is met by everybody.
pub fn condition(rule: &AssignRule, masks: &Masks, roles: RoleSet) -> bool
    ensures { result ≡ meets_test (down_of masks.now.seniors) (roles_of roles) (condition_of rule.now.stored.now.needs) }
{
    match &rule.stored.needs {
        Needs::Everybody => true,
        Needs::Roles(nodes) => worked(nodes.entries(), masks, None, roles),
    }
}
