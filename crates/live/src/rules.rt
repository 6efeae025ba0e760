// Whether some rule lets an actor add or remove a role.
ghost use Rattle.std.specs.Prelude.{◌≡◌, ℕ, ◌<◌, Decides};
ghost use Rattle.std.specs.List.{list_any};
ghost use Rattle.meaning.specs.Measures.{users};
ghost use Rattle.meaning.specs.Rules.{MayAdd, MayRemove};
ghost use Rattle.rbac.specs.Roles.{roles_of};
ghost use Rattle.tables.specs.View.{state_of, policy_of, assign_of, revoke_of};
ghost use Rattle.bounded.specs.Entries.{entries};
ghost use Rattle.deciding.specs.Masked.{down_of};
ghost use Rattle.live.specs.Living.{adds_test, removes_test};

use deciding::{Masks, condition, member};
use planning::{is_trusted, masks_of};
use rbac::{Role, RoleSet, User};
use soundness::{AssignRule, Valid};
use tables::{RevokeEntry, Tables};

// Whether an actor with these roles may give the role to a user with those by the rule.
fn adds(rule: &AssignRule, masks: &Masks, actor: RoleSet, user: RoleSet, role: Role) -> bool
    ensures { result ≡ adds_test (down_of masks.now.seniors) (roles_of actor) (roles_of user) role.number (assign_of rule.now.stored.now) }
{
    rule.stored.targets.contains(role)
        && member(actor, &masks.seniors, rule.stored.admin.number() as usize)
        && condition(rule, masks, user)
}

// Whether an actor with these roles may take the role by the rule.
fn removes(rule: &RevokeEntry, masks: &Masks, actor: RoleSet, role: Role) -> bool
    ensures { result ≡ removes_test (down_of masks.now.seniors) (roles_of actor) role.number (revoke_of rule.now) }
{
    rule.targets.contains(role) && member(actor, &masks.seniors, rule.admin.number() as usize)
}

fn some_adds(board: &Valid, masks: &Masks, actor: RoleSet, user: RoleSet, role: Role) -> bool
    ensures { result ≡ list_any (λ e. adds_test (down_of masks.now.seniors) (roles_of actor) (roles_of user) role.number (assign_of e)) (entries board.now.tables.assigns) }
{
    board
        .assign_rules()
        .any(|rule| adds(&rule, masks, actor, user, role))
}

fn some_removes(rules: &[RevokeEntry], masks: &Masks, actor: RoleSet, role: Role) -> bool
    ensures { result ≡ list_any (λ e. removes_test (down_of masks.now.seniors) (roles_of actor) role.number (revoke_of e)) rules.now }
{
    rules.iter().any(|rule| removes(rule, masks, actor, role))
}

// The roles assigned to a user. The number is read, since a user's number that was read is in range.
fn row_of(tables: &Tables, user: User) -> RoleSet
    ensures is { roles_of result ≡ state_of tables.now user.number }
    ensures inside { user.number < users }
{
    let number = user.number();
    tables.assigned(User::from(number))
}

/// Whether some assign rule lets the actor add the role to the user, whether or not it is assigned already.
pub fn may_add(valid: &Valid, actor: User, user: User, role: Role) -> bool
    ensures { Decides result ((k : ℕ) × MayAdd (policy_of valid.now.tables) (state_of valid.now.tables) actor.number user.number role.number k) }
{
    let tables = &valid.tables;
    if is_trusted(tables, actor) {
        return false;
    }
    let masks = masks_of(tables);
    let acting = row_of(tables, actor);
    let assigned = row_of(tables, user);
    some_adds(valid, &masks, acting, assigned, role)
}

/// Whether some revoke rule lets the actor remove the role from the user, whether or not it is assigned. No rule asks anything of the user; the row is read since that shows that there is such a user.
pub fn may_remove(valid: &Valid, actor: User, user: User, role: Role) -> bool
    ensures { Decides result ((k : ℕ) × MayRemove (policy_of valid.now.tables) (state_of valid.now.tables) actor.number user.number role.number k) }
{
    let tables = &valid.tables;
    let masks = masks_of(tables);
    let acting = row_of(tables, actor);
    let _assigned = row_of(tables, user);
    some_removes(tables.revokes.entries(), &masks, acting, role)
}
