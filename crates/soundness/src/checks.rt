// Whether plain tables are a board's: conditions are sets of roles, and the regime is kept.
ghost use Rattle.std.specs.Prelude.{◌≡◌, ℕ, Decides};
ghost use Rattle.meaning.specs.Lists.{Nth};
ghost use Rattle.tables.specs.declared.entries.AssignEntry.{AssignEntry as Entry};
ghost use Rattle.bounded.specs.Entries.{entries};
ghost use Rattle.soundness.specs.Valid.{Whole, Sound};
ghost use Rattle.soundness.specs.Checks.{is_role_node, all_roles};

use crate::regime::regime_kept;
use meaning::ROLES;
use tables::{AssignEntry, Needs, Tables};
use trees::{Node, UserTree};

fn is_role_node(node: Node) -> bool
    ensures { result ≡ is_role_node node }
{
    match node {
        Node::Role(role) => (role as usize) < ROLES,
        Node::Or | Node::And => true,
        _ => false,
    }
}

fn all_roles(nodes: &[Node]) -> bool
    ensures { result ≡ all_roles nodes.now }
{
    nodes.iter().all(|node| is_role_node(*node))
}

fn is_whole(needs: &Needs) -> bool
    ensures { Decides result (Whole needs.now) }
{
    match needs {
        Needs::Everybody => true,
        Needs::Roles(nodes) => UserTree::new(*nodes).is_some() && all_roles(nodes.entries()),
    }
}

fn all_whole(rules: &[AssignEntry]) -> bool
    ensures { Decides result ((k : ℕ) (e : Entry) → Nth k e rules.now → Whole e.needs) }
{
    rules.iter().all(|rule| is_whole(&rule.needs))
}

/// Whether every condition of an assign rule is a set of roles.
pub fn conditions_whole(tables: &Tables) -> bool
    ensures { Decides result ((k : ℕ) (e : Entry) → Nth k e (entries tables.now.assigns) → Whole e.needs) }
{
    all_whole(tables.assigns.entries())
}

/// Whether the tables are a board's: every condition is a set of roles, and the regime's properties hold.
pub fn is_sound(tables: &Tables) -> bool
    ensures { Decides result (Sound tables.now) }
{
    conditions_whole(tables) && regime_kept(tables)
}
