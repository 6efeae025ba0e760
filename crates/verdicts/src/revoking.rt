// Who can take which role.
ghost use Rattle.std.specs.Prelude.{◌≡◌, ℕ, ◌<◌, true, T, length, position};
ghost use Rattle.rbac.specs.Roles.{roles_of};
ghost use Rattle.deciding.specs.Slots.{slot_at};
ghost use Rattle.tables.specs.View.{policy_of};
ghost use Rattle.verdicts.specs.Revoking.{RevokedBy};

use crate::revoker::Revoker;
use deciding::Slot;
use rbac::Role;
use tables::{RevokeEntry, Tables};

fn first_with(rules: &[RevokeEntry], role: Role) -> Option<usize>
    ensures { result ≡ position (λ (x : _). roles_of x.targets role.number) rules.now }
{
    rules.iter().position(|rule| rule.targets.contains(role))
}

// The first revoke rule that has the target.
pub(crate) fn revoker(tables: &Tables, role: Role) -> Option<Revoker>
    ensures { RevokedBy (policy_of tables.now).revokes role.number result }
{
    let rules = tables.revokes.entries();
    let at = first_with(rules, role)?;
    Some(Revoker {
        rule: (at + 1) as u8,
        admin: rules[at].admin,
    })
}

// The first slot whose user the role is assigned to. It and `slot_of` are one search of the library each, with another test; a function over the test would say no less.
pub(crate) fn holder(slots: &[Slot], role: Role) -> usize
    requires { (i : ℕ) × (i < length slots.now) × T (roles_of (slot_at slots.now i).roles role.number) }
    ensures below { result < length slots.now }
    ensures holds { roles_of (slot_at slots.now result).roles role.number ≡ true }
{
    match slots.iter().position(|slot| slot.roles.contains(role)) {
        Some(slot) => slot,
        None => unreachable(),
    }
}
