// The roles that are assigned to a user.
ghost use Rattle.std.specs.Prelude.{ℕ, List};
ghost use Rattle.texts.specs.declared.faults.Way.TheVariants.{Add, Remove};
ghost use Rattle.book.specs.Book.{pairs};
ghost use Rattle.book.specs.Entering.{Entered};
ghost use Rattle.drafts.specs.View.{book_of};
ghost use Rattle.entering.specs.Laid.{Laid};
ghost use Rattle.lines.specs.Changes.{NamesRoles};

use book::Cause;
use lines::Extra;
use rbac::{RoleSet, User};
use tables::Tables;

pub(crate) fn add(
    tables: &mut Tables,
    user: User,
    roles: RoleSet,
    extra: &Extra,
) -> Result<(), Cause>
    ensures entered { (rs : List ℕ) → NamesRoles rs roles extra.now → Entered Add (book_of tables.old) (pairs user.number rs) result (book_of tables.new) }
    ensures laid { Laid tables.old → Laid tables.new }
{
    if extra.twice | tables.assigned(user).meets(roles) {
        return Err(Cause::AlreadyThere);
    }
    tables.assign_all(user, roles).map_err(|_| Cause::Full)
}

pub(crate) fn remove(
    tables: &mut Tables,
    user: User,
    roles: RoleSet,
    extra: &Extra,
) -> Result<(), Cause>
    ensures entered { (rs : List ℕ) → NamesRoles rs roles extra.now → Entered Remove (book_of tables.old) (pairs user.number rs) result (book_of tables.new) }
    ensures laid { Laid tables.old → Laid tables.new }
{
    if extra.twice {
        return Err(Cause::AlreadyThere);
    }
    if !roles.is_within(tables.assigned(user)) {
        return Err(Cause::NotThere);
    }
    tables.unassign_all(user, roles);
    Ok(())
}
