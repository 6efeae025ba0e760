// The masks of seniors and givers. Each table is filled by a call of its own; one function that fills any table would be given that call as a closure, and its contract would say no less.
ghost use Rattle.std.specs.Prelude.{◌≡◌, ℕ, ◌<◌, T, length, Decides, slice_index_or};
ghost use Rattle.meaning.specs.Measures.{roles, permissions};
ghost use Rattle.meaning.specs.Membership.{Senior};
ghost use Rattle.rbac.specs.Roles.{roles_of};
ghost use Rattle.hierarchy.specs.Edges.{edges_of, no_roles};
ghost use Rattle.tables.specs.View.{policy_of};
ghost use Rattle.deciding.specs.Masked.{down_of};
ghost use Rattle.planning.specs.MasksTold.{MasksTell};

use deciding::Masks;
use hierarchy::Hierarchy;
use meaning::{PERMISSIONS, ROLES};
use rbac::{Role, RoleSet};
use tables::Tables;

// For each role those that it is senior to.
fn juniors(hierarchy: &Hierarchy) -> [RoleSet; ROLES]
    ensures full { length result ≡ roles }
    ensures says { (q r : ℕ) → q < roles → Decides (roles_of (slice_index_or result q no_roles) r) (Senior (edges_of hierarchy.now) q r) }
{
    let mut below = [RoleSet::empty(); ROLES];
    for (q, set) in below.iter_mut().enumerate() {
        *set = hierarchy.juniors(Role::modulo(q));
    }
    below
}

// The roles in whose set the role stands.
fn above(below: &[RoleSet], junior: Role) -> RoleSet
    requires { length below.now ≡ roles }
    ensures { (k : ℕ) → roles_of result k ≡ roles_of (slice_index_or below.now k no_roles) junior.number }
{
    let mut set = RoleSet::empty();
    for (q, juniors) in below.iter().enumerate() {
        if juniors.contains(junior) {
            set = set.insert(Role::modulo(q));
        }
    }
    set
}

// For each role those senior to it.
fn seniors(below: &[RoleSet]) -> [RoleSet; ROLES]
    requires { length below.now ≡ roles }
    ensures full { length result ≡ roles }
    ensures says { (k r : ℕ) → r < roles → roles_of (slice_index_or result r no_roles) k ≡ roles_of (slice_index_or below.now k no_roles) r }
{
    let mut masks = [RoleSet::empty(); ROLES];
    for (r, mask) in masks.iter_mut().enumerate() {
        *mask = above(below, Role::modulo(r));
    }
    masks
}

// The roles senior to one of the set.
fn givers_of(set: RoleSet, seniors: &[RoleSet]) -> RoleSet
    requires { length seniors.now ≡ roles }
    ensures { (k : ℕ) → Decides (roles_of result k) ((r : ℕ) × (r < roles) × T (roles_of set r) × T (down_of seniors.now k r)) }
{
    let mut givers = RoleSet::empty();
    for (r, senior) in seniors.iter().enumerate() {
        if set.contains(Role::modulo(r)) {
            givers = givers.union(*senior);
        }
    }
    givers
}

// For each permission the roles whose members have it.
fn givers(gives: &[RoleSet], seniors: &[RoleSet]) -> [RoleSet; PERMISSIONS]
    requires ranked { length seniors.now ≡ roles }
    requires given { length gives.now ≡ permissions }
    ensures full { length result ≡ permissions }
    ensures given { length gives.now ≡ permissions }
    ensures says { (n k : ℕ) → n < permissions → Decides (down_of result k n) ((r : ℕ) × (r < roles) × T (roles_of (slice_index_or gives.now n no_roles) r) × T (down_of seniors.now k r)) }
{
    let mut masks = [RoleSet::empty(); PERMISSIONS];
    for (n, mask) in masks.iter_mut().enumerate() {
        *mask = givers_of(gives[n], seniors);
    }
    masks
}

/// The masks of a board's roles: for each role those senior to it, and for each permission the roles whose members have it.
pub fn masks_of(tables: &Tables) -> Masks
    ensures { MasksTell (policy_of tables.now) result.seniors result.givers }
{
    let below = juniors(&tables.hierarchy);
    let seniors = seniors(&below);
    let givers = givers(&tables.gives, &seniors);
    Masks { seniors, givers }
}
