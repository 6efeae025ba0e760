// A new board. Its places are filled with blanks, which no entry is made of.
ghost use Rattle.std.specs.Prelude.{◌≡◌, []};
ghost use Rattle.tables.specs.View.{state_of, policy_of, requirements_of};
ghost use Rattle.bounded.specs.Entries.{entries};
ghost use Rattle.tables.specs.Fresh.{nothing_assigned, new_policy};

use crate::entries::{AssignEntry, Demand, Needs, RequirementEntry, RevokeEntry};
use crate::rows::Rows;
use crate::tables::Tables;
use bounded::Bounded;
use hierarchy::Hierarchy;
use meaning::{PERMISSIONS, Regime};
use rbac::{Role, RoleSet, User};
use trees::no_nodes;

impl Tables {
    /// Under aatu, and nothing else.
    pub fn new() -> Tables
        ensures policy { policy_of result ≡ new_policy }
        ensures state { state_of result ≡ nothing_assigned }
        ensures requirements { requirements_of result ≡ [] }
        ensures nobody { entries result.trusted ≡ [] }
    {
        let admin = Role::modulo(0);
        let targets = RoleSet::empty();
        Tables {
            regime: Regime::Aatu,
            rows: Rows::free(),
            hierarchy: Hierarchy::new(),
            gives: [RoleSet::empty(); PERMISSIONS],
            trusted: Bounded::new(User::from(0)),
            assigns: Bounded::new(AssignEntry {
                admin,
                needs: Needs::Everybody,
                targets,
            }),
            revokes: Bounded::new(RevokeEntry { admin, targets }),
            requirements: Bounded::new(RequirementEntry {
                demand: Demand::Always,
                larger: no_nodes(),
                smaller: no_nodes(),
            }),
        }
    }
}
