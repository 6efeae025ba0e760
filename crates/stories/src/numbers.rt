// Calls with plain numbers, as a server reads them from a line: a number that no user, role or permission has is refused.
ghost use Rattle.std.specs.Prelude.{◌≡◌, [], OnErr};
ghost use Rattle.book.specs.Calls.{adding, removing, membership, permission as may_do};
ghost use Rattle.book.specs.Outcomes.{Outcome};
ghost use Rattle.board.specs.View.{says};
ghost use Rattle.board.specs.Answers.{done_by, truth_by};
ghost use Rattle.meaning.specs.Measures.{users, roles, permissions};
ghost use Rattle.rbac.specs.declared.users.User.{User as NumberedUser};
ghost use Rattle.rbac.specs.declared.roles.Role.{Role as NumberedRole};
ghost use Rattle.rbac.specs.declared.permissions.Permission.{Permission as NumberedPermission};
ghost use Rattle.stories.specs.Numbered.{Named, IsNumbered};

use board::Board;
use book::{Cause, Refusal};
use rbac::{Permission, Role, User};

// An actor, a user and a role.
#[derive(Clone, Copy)]
struct Parts {
    actor: User,
    user: User,
    role: Role,
}

fn a_user(number: u32) -> Result<User, Cause>
    ensures { IsNumbered users (λ (u : NumberedUser). u.number) number result }
{
    User::new(number).ok_or(Cause::Range)
}

fn a_role(number: u32) -> Result<Role, Cause>
    ensures { IsNumbered roles (λ (r : NumberedRole). r.number) number result }
{
    Role::new(number).ok_or(Cause::Range)
}

fn a_permission(number: u32) -> Result<Permission, Cause>
    ensures { IsNumbered permissions (λ (p : NumberedPermission). p.number) number result }
{
    Permission::new(number).ok_or(Cause::Range)
}

// The parts that have these numbers.
fn named(actor: u32, user: u32, role: u32) -> Result<Parts, Cause>
    ensures { Named actor user role result }
{
    Ok(Parts {
        actor: a_user(actor)?,
        user: a_user(user)?,
        role: a_role(role)?,
    })
}

/// The actor adds the role to the user: done, or refused with 4 where a number is out of range, 9, 10, 12 or 13 (docs/REFUSALS.md), and the board as it was.
pub fn add(board: &mut Board, actor: u32, user: u32, role: u32) -> Result<(), Refusal>
    ensures outcome { Outcome (says board.old) (adding actor user role) (done_by result []) (says board.new) }
    ensures same { OnErr result (board.new ≡ board.old) }
{
    let parts = named(actor, user, role)?;
    board.add(parts.actor, parts.user, parts.role)
}

/// The actor removes the role from the user: done, or refused with 4 where a number is out of range, 9, 11 or 12, and the board as it was.
pub fn remove(board: &mut Board, actor: u32, user: u32, role: u32) -> Result<(), Refusal>
    ensures outcome { Outcome (says board.old) (removing actor user role) (done_by result []) (says board.new) }
    ensures same { OnErr result (board.new ≡ board.old) }
{
    let parts = named(actor, user, role)?;
    board.remove(parts.actor, parts.user, parts.role)
}

/// Whether the user is a member of the role; refused with 4 where a number is out of range.
pub fn is_member(board: &Board, user: u32, role: u32) -> Result<bool, Refusal>
    ensures { Outcome (says board.now) (membership user role) (truth_by result) (says board.now) }
{
    let user = a_user(user)?;
    let role = a_role(role)?;
    Ok(board.is_member(user, role))
}

/// Whether the user has the permission; refused with 4 where a number is out of range.
pub fn has_permission(board: &Board, user: u32, permission: u32) -> Result<bool, Refusal>
    ensures { Outcome (says board.now) (may_do user permission) (truth_by result) (says board.now) }
{
    let user = a_user(user)?;
    let permission = a_permission(permission)?;
    Ok(board.has_permission(user, permission))
}
