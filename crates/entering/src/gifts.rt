// The roles that a permission is given to.
ghost use Rattle.std.specs.Prelude.{ℕ, List};
ghost use Rattle.texts.specs.declared.faults.Way.TheVariants.{Add, Remove};
ghost use Rattle.book.specs.Book.{gifts};
ghost use Rattle.book.specs.Entering.{Entered};
ghost use Rattle.drafts.specs.View.{book_of};
ghost use Rattle.entering.specs.Laid.{Laid};
ghost use Rattle.lines.specs.Changes.{NamesRoles};

use book::Cause;
use lines::Extra;
use rbac::{Permission, RoleSet};
use tables::Tables;

pub(crate) fn add(
    tables: &mut Tables,
    permission: Permission,
    roles: RoleSet,
    extra: &Extra,
) -> Result<(), Cause>
    ensures entered { (rs : List ℕ) → NamesRoles rs roles extra.now → Entered Add (book_of tables.old) (gifts permission.number rs) result (book_of tables.new) }
    ensures laid { Laid tables.old → Laid tables.new }
{
    let place = permission.number() as usize;
    let given = tables.gives[place];
    if extra.twice | given.meets(roles) {
        return Err(Cause::AlreadyThere);
    }
    tables.gives[place] = given.union(roles);
    Ok(())
}

pub(crate) fn remove(
    tables: &mut Tables,
    permission: Permission,
    roles: RoleSet,
    extra: &Extra,
) -> Result<(), Cause>
    ensures entered { (rs : List ℕ) → NamesRoles rs roles extra.now → Entered Remove (book_of tables.old) (gifts permission.number rs) result (book_of tables.new) }
    ensures laid { Laid tables.old → Laid tables.new }
{
    let place = permission.number() as usize;
    let given = tables.gives[place];
    if extra.twice {
        return Err(Cause::AlreadyThere);
    }
    if !roles.is_within(given) {
        return Err(Cause::NotThere);
    }
    tables.gives[place] = given.difference(roles);
    Ok(())
}
