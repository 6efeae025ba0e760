// Rules by which roles are assigned.
ghost use Rattle.std.specs.Prelude.{◌≡◌, ℕ, List, Decides};
ghost use Rattle.texts.specs.declared.faults.Way.TheVariants.{Add, Remove};
ghost use Rattle.tables.specs.View.{condition_of, assign_of, policy_of};
ghost use Rattle.soundness.specs.Valid.{Whole};
ghost use Rattle.book.specs.Book.{assigns};
ghost use Rattle.book.specs.Entering.{Entered};
ghost use Rattle.drafts.specs.View.{book_of};
ghost use Rattle.entering.specs.Laid.{AllNeedsWhole, Laid};
ghost use Rattle.entering.specs.Places.{Place};
ghost use Rattle.lines.specs.Changes.{NamesRoles};

use crate::nodes;
use book::Cause;
use lines::Extra;
use tables::{AssignEntry, Needs, Tables};

// Whether both say the same condition.
fn ask_same(one: &Needs, other: &Needs) -> bool
    ensures { Whole one.now → Whole other.now → Decides result (condition_of one.now ≡ condition_of other.now) }
{
    match one {
        Needs::Everybody => match other {
            Needs::Everybody => true,
            Needs::Roles(_) => false,
        },
        Needs::Roles(ones) => match other {
            Needs::Everybody => false,
            Needs::Roles(others) => nodes::are_same(ones, others),
        },
    }
}

// Whether both say the same rule.
fn are_same(one: &AssignEntry, other: &AssignEntry) -> bool
    ensures { Whole one.now.needs → Whole other.now.needs → Decides result (assign_of one.now ≡ assign_of other.now) }
{
    (one.admin == other.admin)
        & (one.targets.word() == other.targets.word())
        & ask_same(&one.needs, &other.needs)
}

fn place_of(tables: &Tables, entry: &AssignEntry) -> Option<usize>
    ensures { AllNeedsWhole tables.now → Whole entry.now.needs → Place (assign_of entry.now) (policy_of tables.now).assigns result }
{
    tables
        .assigns
        .entries()
        .iter()
        .position(|other| are_same(other, entry))
}

pub(crate) fn add(tables: &mut Tables, entry: &AssignEntry, extra: &Extra) -> Result<(), Cause>
    requires needs { AllNeedsWhole tables.old }
    requires whole { Whole entry.now.needs }
    ensures entered { (rs : List ℕ) → NamesRoles rs entry.now.targets extra.now → Entered Add (book_of tables.old) (assigns (assign_of entry.now) rs) result (book_of tables.new) }
    ensures laid { Laid tables.old → Laid tables.new }
{
    if extra.twice | place_of(tables, entry).is_some() {
        return Err(Cause::AlreadyThere);
    }
    tables.assigns.push(*entry).map_err(|_| Cause::Full)
}

pub(crate) fn remove(tables: &mut Tables, entry: &AssignEntry, extra: &Extra) -> Result<(), Cause>
    requires needs { AllNeedsWhole tables.old }
    requires whole { Whole entry.now.needs }
    ensures entered { (rs : List ℕ) → NamesRoles rs entry.now.targets extra.now → Entered Remove (book_of tables.old) (assigns (assign_of entry.now) rs) result (book_of tables.new) }
    ensures laid { Laid tables.old → Laid tables.new }
{
    if extra.twice {
        return Err(Cause::AlreadyThere);
    }
    let place = place_of(tables, entry).ok_or(Cause::NotThere)?;
    let _ = tables.assigns.remove(place);
    Ok(())
}
