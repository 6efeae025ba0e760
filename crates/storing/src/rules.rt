// The lines of the trusted, of rules and of requirements.
ghost use Rattle.std.specs.Prelude.{ℕ, ◌<◌, T, map, Decides};
ghost use Rattle.meaning.specs.Measures.{users as all_users};
ghost use Rattle.meaning.specs.Lists.{Nth, listed as named};
ghost use Rattle.lines.specs.Lists.{number_of};
ghost use Rattle.pen.specs.Puts.{Wrote};
ghost use Rattle.pen.specs.Ascending.{ascending};
ghost use Rattle.boardtext.specs.Canonical.{ended, each, trust_line, assign_text, revoke_text, requirement_text};
ghost use Rattle.tables.specs.View.{policy_of, assign_of, revoke_of, requirement_of};
ghost use Rattle.tables.specs.declared.entries.AssignEntry.{AssignEntry as AnAssignEntry};
ghost use Rattle.tables.specs.declared.entries.RequirementEntry.{RequirementEntry as ARequirementEntry};
ghost use Rattle.soundness.specs.Valid.{Whole};
ghost use Rattle.drafts.specs.Neat.{OfSet};

use crate::entry::put;
use lines::{Change, Extra};
use meaning::USERS;
use pen::Writer;
use rbac::User;
use tables::{AssignEntry, Demand, Needs, RequirementEntry, RevokeEntry, Tables};

// Whether the list names somebody; the number of each entry is a user's.
fn names_somebody(users: &[User]) -> bool
    ensures { Decides result ((u : ℕ) × (u < all_users) × T (named (map number_of users.now) u)) }
{
    let Some(first) = users.first() else {
        return false;
    };
    (first.number() as usize) < USERS
}

// The line of those who are trusted, if there are any.
pub(crate) fn put_trust(w: &mut Writer, tables: &Tables)
    ensures { Wrote w.old (trust_line (ascending (policy_of tables.now).trusted all_users)) w.new }
{
    if names_somebody(tables.trusted.entries()) {
        let mut beside = Extra::new();
        beside.trusted = tables.trusted;
        put(w, Change::Trust, &beside);
    }
}

fn put_assign(w: &mut Writer, entry: &AssignEntry)
    ensures { Whole entry.now.needs → Wrote w.old (ended (assign_text (assign_of entry.now))) w.new }
{
    let mut beside = Extra::new();
    beside.condition = match entry.needs {
        Needs::Everybody => None,
        Needs::Roles(nodes) => Some(nodes),
    };
    let admin = entry.admin;
    let targets = entry.targets;
    put(w, Change::Assign { admin, targets }, &beside);
}

// The lines of assign rules, in order.
pub(crate) fn put_assigns(w: &mut Writer, entries: &[AssignEntry])
    ensures { ((k : ℕ) (e : AnAssignEntry) → Nth k e entries.now → Whole e.needs) → Wrote w.old (each assign_text (map assign_of entries.now)) w.new }
{
    for entry in entries {
        put_assign(w, entry);
    }
}

fn put_revoke(w: &mut Writer, entry: &RevokeEntry)
    ensures { Wrote w.old (ended (revoke_text (revoke_of entry.now))) w.new }
{
    let admin = entry.admin;
    let targets = entry.targets;
    put(w, Change::Revoke { admin, targets }, &Extra::new());
}

// The lines of revoke rules, in order.
pub(crate) fn put_revokes(w: &mut Writer, entries: &[RevokeEntry])
    ensures { Wrote w.old (each revoke_text (map revoke_of entries.now)) w.new }
{
    for entry in entries {
        put_revoke(w, entry);
    }
}

fn put_requirement(w: &mut Writer, entry: &RequirementEntry)
    ensures { OfSet entry.now.larger × OfSet entry.now.smaller → Wrote w.old (ended (requirement_text (requirement_of entry.now))) w.new }
{
    let mut beside = Extra::new();
    beside.left = entry.larger;
    beside.right = entry.smaller;
    match entry.demand {
        Demand::Always => put(w, Change::Always, &beside),
        Demand::Never => put(w, Change::Never, &beside),
    }
}

// The lines of requirements, in order.
pub(crate) fn put_requirements(w: &mut Writer, entries: &[RequirementEntry])
    ensures { ((k : ℕ) (e : ARequirementEntry) → Nth k e entries.now → OfSet e.larger × OfSet e.smaller) → Wrote w.old (each requirement_text (map requirement_of entries.now)) w.new }
{
    for entry in entries {
        put_requirement(w, entry);
    }
}
