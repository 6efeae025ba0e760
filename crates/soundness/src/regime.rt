// What the regime asks for, as sets of roles: those that administer, those that rules assign and revoke, and those that somebody has.
ghost use Rattle.std.specs.Prelude.{◌≡◌, ℕ, ◌<◌, Bool, not, T, length, Decides, MatchOption};
ghost use Rattle.meaning.specs.Measures.{users};
ghost use Rattle.meaning.specs.Membership.{User as UserNumber, Role as RoleNumber, IsUser};
ghost use Rattle.meaning.specs.Lists.{Nth};
ghost use Rattle.meaning.specs.Regimes.{Administers, Assignable, Revocable, AdminsAreNoTargets, AdminsAreAssigned, AssignableIsRevocable, Aar, ObeysRegime};
ghost use Rattle.rbac.specs.Roles.{roles_of};
ghost use Rattle.tables.specs.View.{assigned, state_of, policy_of, is_among};

use meaning::Regime;
use rbac::{Role, RoleSet, User};
use tables::{AssignEntry, RevokeEntry, Row, Tables};

// A rule of either kind: who administers it, and the roles that it assigns or revokes.
trait Rule {
    ghost administers: { Self → RoleNumber };

    ghost aims: { Self → RoleNumber → Bool };

    fn admin(&self) -> Role
        ensures { result.number ≡ administers self.now };

    fn targets(&self) -> RoleSet
        ensures { roles_of result ≡ aims self.now };
}

impl Rule for AssignEntry {
    ghost administers = { λ e. e.admin.number };

    ghost aims = { λ e. roles_of e.targets };

    fn admin(&self) -> Role {
        self.admin
    }

    fn targets(&self) -> RoleSet {
        self.targets
    }
}

impl Rule for RevokeEntry {
    ghost administers = { λ e. e.admin.number };

    ghost aims = { λ e. roles_of e.targets };

    fn admin(&self) -> Role {
        self.admin
    }

    fn targets(&self) -> RoleSet {
        self.targets
    }
}

// The roles that administer some of the rules.
fn admins_of<R: Rule>(rules: &[R]) -> RoleSet
    ensures { (r : RoleNumber) → Decides (roles_of result r) ((k : ℕ) × (rule : R) × Nth k rule rules.now × (R.administers rule ≡ r)) }
{
    rules.iter().fold(RoleSet::empty(), |admins, rule| admins.insert(rule.admin()))
}

// The roles that some of the rules assign or revoke.
fn targets_of<R: Rule>(rules: &[R]) -> RoleSet
    ensures { (r : RoleNumber) → Decides (roles_of result r) ((k : ℕ) × (rule : R) × Nth k rule rules.now × T (R.aims rule r)) }
{
    rules.iter().fold(
        RoleSet::empty(),
        |targets, rule| targets.union(rule.targets()),
    )
}

fn held_in(rows: &[Row]) -> RoleSet
    ensures { (r : RoleNumber) → Decides (roles_of result r) ((u : UserNumber) × IsUser u × T (assigned rows.now u r)) }
{
    let mut held = RoleSet::empty();
    for row in rows {
        if row.holder().is_some() {
            held = held.union(row.roles);
        }
    }
    held
}

// The first user that the list names, if it names anybody.
fn first_named(list: &[User]) -> Option<User>
    ensures { MatchOption result (length list.now ≡ 0) (λ u. (u.number < users) × T (is_among list.now u.number)) }
{
    list.first().copied()
}

/// The administering roles of all rules.
pub fn admins(tables: &Tables) -> RoleSet
    ensures { (r : RoleNumber) → Decides (roles_of result r) (Administers (policy_of tables.now) r) }
{
    let assigning = admins_of(tables.assigns.entries());
    let revoking = admins_of(tables.revokes.entries());
    assigning.union(revoking)
}

/// The targets of assign rules.
pub fn assignable(tables: &Tables) -> RoleSet
    ensures { (r : RoleNumber) → Decides (roles_of result r) (Assignable (policy_of tables.now) r) }
{
    targets_of(tables.assigns.entries())
}

/// The targets of revoke rules.
pub fn revocable(tables: &Tables) -> RoleSet
    ensures { (r : RoleNumber) → Decides (roles_of result r) (Revocable (policy_of tables.now) r) }
{
    targets_of(tables.revokes.entries())
}

/// The roles that are assigned to somebody.
pub fn held(tables: &Tables) -> RoleSet
    ensures { (r : RoleNumber) → Decides (roles_of result r) ((u : UserNumber) × IsUser u × T (state_of tables.now u r)) }
{
    held_in(tables.rows.entries())
}

pub fn admins_are_no_targets(tables: &Tables) -> bool
    ensures { Decides result (AdminsAreNoTargets (policy_of tables.now)) }
{
    let targets = assignable(tables).union(revocable(tables));
    !admins(tables).meets(targets)
}

pub fn admins_are_assigned(tables: &Tables) -> bool
    ensures { Decides result (AdminsAreAssigned (policy_of tables.now) (state_of tables.now)) }
{
    admins(tables).is_within(held(tables))
}

pub fn assignable_is_revocable(tables: &Tables) -> bool
    ensures { Decides result (AssignableIsRevocable (policy_of tables.now)) }
{
    assignable(tables).is_within(revocable(tables))
}

// Whether nobody is trusted. The first entry is read, and not only the length, since the number of a user that was read is in range.
fn nobody_trusted(tables: &Tables) -> bool
    ensures { Decides result ((u : UserNumber) → T (not ((policy_of tables.now).trusted u))) }
{
    first_named(tables.trusted.entries()).is_none()
}

fn aar_kept(tables: &Tables) -> bool
    ensures { Decides result (Aar (policy_of tables.now) (state_of tables.now)) }
{
    nobody_trusted(tables)
        && admins_are_no_targets(tables)
        && admins_are_assigned(tables)
        && assignable_is_revocable(tables)
}

/// Whether the board is as its regime asks.
pub fn regime_kept(tables: &Tables) -> bool
    ensures { Decides result (ObeysRegime (policy_of tables.now) (state_of tables.now)) }
{
    match tables.regime {
        Regime::Aatu => tables.revokes.entries().is_empty(),
        Regime::Aar => aar_kept(tables),
    }
}
