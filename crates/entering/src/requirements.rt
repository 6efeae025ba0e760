// Standing requirements.
ghost use Rattle.std.specs.Prelude.{◌≡◌, Decides};
ghost use Rattle.texts.specs.declared.faults.Way.TheVariants.{Add, Remove};
ghost use Rattle.tables.specs.View.{requirement_of, requirements_of};
ghost use Rattle.book.specs.Book.{requires as required};
ghost use Rattle.book.specs.Entering.{Entered};
ghost use Rattle.drafts.specs.View.{book_of};
ghost use Rattle.entering.specs.Laid.{SidesWhole, AllSidesWhole, Laid};
ghost use Rattle.entering.specs.Places.{Place};

use crate::nodes;
use book::Cause;
use tables::{RequirementEntry, Tables};

// Whether both say the same requirement.
fn are_same(one: &RequirementEntry, other: &RequirementEntry) -> bool
    ensures { SidesWhole one.now → SidesWhole other.now → Decides result (requirement_of one.now ≡ requirement_of other.now) }
{
    (one.demand == other.demand)
        & nodes::are_same(&one.larger, &other.larger)
        & nodes::are_same(&one.smaller, &other.smaller)
}

fn place_of(tables: &Tables, entry: &RequirementEntry) -> Option<usize>
    ensures { AllSidesWhole tables.now → SidesWhole entry.now → Place (requirement_of entry.now) (requirements_of tables.now) result }
{
    tables
        .requirements
        .entries()
        .iter()
        .position(|other| are_same(other, entry))
}

pub(crate) fn add(tables: &mut Tables, entry: &RequirementEntry) -> Result<(), Cause>
    requires sides { AllSidesWhole tables.old }
    requires whole { SidesWhole entry.now }
    ensures entered { Entered Add (book_of tables.old) (required (requirement_of entry.now)) result (book_of tables.new) }
    ensures laid { Laid tables.old → Laid tables.new }
{
    if place_of(tables, entry).is_some() {
        return Err(Cause::AlreadyThere);
    }
    tables.requirements.push(*entry).map_err(|_| Cause::Full)
}

pub(crate) fn remove(tables: &mut Tables, entry: &RequirementEntry) -> Result<(), Cause>
    requires sides { AllSidesWhole tables.old }
    requires whole { SidesWhole entry.now }
    ensures entered { Entered Remove (book_of tables.old) (required (requirement_of entry.now)) result (book_of tables.new) }
    ensures laid { Laid tables.old → Laid tables.new }
{
    let place = place_of(tables, entry).ok_or(Cause::NotThere)?;
    let _ = tables.requirements.remove(place);
    Ok(())
}
