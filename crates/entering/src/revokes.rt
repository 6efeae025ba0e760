// Rules by which roles are revoked.
ghost use Rattle.std.specs.Prelude.{◌≡◌, ℕ, List, Decides};
ghost use Rattle.texts.specs.declared.faults.Way.TheVariants.{Add, Remove};
ghost use Rattle.tables.specs.View.{revoke_of, policy_of};
ghost use Rattle.book.specs.Book.{revokes};
ghost use Rattle.book.specs.Entering.{Entered};
ghost use Rattle.drafts.specs.View.{book_of};
ghost use Rattle.entering.specs.Laid.{Laid};
ghost use Rattle.entering.specs.Places.{Place};
ghost use Rattle.lines.specs.Changes.{NamesRoles};

use crate::regime::is_aatu;
use book::Cause;
use lines::Extra;
use tables::{RevokeEntry, Tables};

// Whether both say the same rule.
fn are_same(one: RevokeEntry, other: RevokeEntry) -> bool
    ensures { Decides result (revoke_of one ≡ revoke_of other) }
{
    one == other
}

fn place_of(tables: &Tables, entry: RevokeEntry) -> Option<usize>
    ensures { Place (revoke_of entry) (policy_of tables.now).revokes result }
{
    tables
        .revokes
        .entries()
        .iter()
        .position(|other| are_same(*other, entry))
}

pub(crate) fn add(tables: &mut Tables, entry: RevokeEntry, extra: &Extra) -> Result<(), Cause>
    ensures entered { (rs : List ℕ) → NamesRoles rs entry.targets extra.now → Entered Add (book_of tables.old) (revokes (revoke_of entry) rs) result (book_of tables.new) }
    ensures laid { Laid tables.old → Laid tables.new }
{
    if is_aatu(tables) {
        return Err(Cause::WrongRegime);
    }
    if extra.twice | place_of(tables, entry).is_some() {
        return Err(Cause::AlreadyThere);
    }
    tables.revokes.push(entry).map_err(|_| Cause::Full)
}

pub(crate) fn remove(tables: &mut Tables, entry: RevokeEntry, extra: &Extra) -> Result<(), Cause>
    ensures entered { (rs : List ℕ) → NamesRoles rs entry.targets extra.now → Entered Remove (book_of tables.old) (revokes (revoke_of entry) rs) result (book_of tables.new) }
    ensures laid { Laid tables.old → Laid tables.new }
{
    if is_aatu(tables) {
        return Err(Cause::WrongRegime);
    }
    if extra.twice {
        return Err(Cause::AlreadyThere);
    }
    let place = place_of(tables, entry).ok_or(Cause::NotThere)?;
    let _ = tables.revokes.remove(place);
    Ok(())
}
