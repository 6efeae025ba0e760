// Seniority and permissions as sets of roles, worked out once.
ghost use Rattle.std.specs.Prelude.{◌≡◌, length};
ghost use Rattle.meaning.specs.Measures.{roles, permissions};

use meaning::{PERMISSIONS, ROLES};
use rbac::RoleSet;

/// For each role, by its number, a set of roles senior to it, and for each permission a set of those whose members have it. What is in the sets is said by whoever makes them.
#[derive(Clone, Copy)]
pub struct Masks {
    pub seniors: [RoleSet; ROLES],
    pub givers: [RoleSet; PERMISSIONS],
    ghost ranked: { length seniors ≡ roles },
    ghost given: { length givers ≡ permissions },
}
