// The roles that a role is directly senior to.
ghost use Rattle.std.specs.Prelude.{ℕ, List};
ghost use Rattle.texts.specs.declared.faults.Way.TheVariants.{Add, Remove};
ghost use Rattle.book.specs.Book.{edges};
ghost use Rattle.book.specs.Entering.{Entered};
ghost use Rattle.drafts.specs.View.{book_of};
ghost use Rattle.entering.specs.Laid.{Laid};
ghost use Rattle.lines.specs.Changes.{NamesRoles};

use book::Cause;
use lines::Extra;
use rbac::{Role, RoleSet};
use tables::Tables;

// The new edges all lead down from the senior, so a circle is closed just where the old ones lead to it from one of its new juniors.
pub(crate) fn add(
    tables: &mut Tables,
    senior: Role,
    juniors: RoleSet,
    extra: &Extra,
) -> Result<(), Cause>
    ensures entered { (rs : List ℕ) → NamesRoles rs juniors extra.now → Entered Add (book_of tables.old) (edges senior.number rs) result (book_of tables.new) }
    ensures laid { Laid tables.old → Laid tables.new }
{
    if extra.twice | tables.hierarchy.direct(senior).meets(juniors) {
        return Err(Cause::AlreadyThere);
    }
    if tables.hierarchy.members(juniors).contains(senior) {
        return Err(Cause::Circle);
    }
    tables.hierarchy.insert_all(senior, juniors);
    Ok(())
}

pub(crate) fn remove(
    tables: &mut Tables,
    senior: Role,
    juniors: RoleSet,
    extra: &Extra,
) -> Result<(), Cause>
    ensures entered { (rs : List ℕ) → NamesRoles rs juniors extra.now → Entered Remove (book_of tables.old) (edges senior.number rs) result (book_of tables.new) }
    ensures laid { Laid tables.old → Laid tables.new }
{
    if extra.twice {
        return Err(Cause::AlreadyThere);
    }
    if !juniors.is_within(tables.hierarchy.direct(senior)) {
        return Err(Cause::NotThere);
    }
    tables.hierarchy.remove_all(senior, juniors);
    Ok(())
}
