// An officer's change, made in a draft of its own.
ghost use Rattle.std.specs.Prelude.{◌≡◌};
ghost use Rattle.drafts.specs.View.{book_of};
ghost use Rattle.entering.specs.Changing.{Changed};

use crate::keeping::enter_in;
use book::{Cause, Refusal};
use drafts::Draft;
use lines::Extra;
use meaning::{LIST_PLACES, WORK_WORDS};
use texts::alone::read_change;

/// The draft as the change that the text says makes it, before it is weighed as a whole, where the step list and the work table that are lent have these lengths.
pub fn changed(before: &Draft, text: &[u8], list: usize, work: usize) -> Result<Draft, Refusal>
    ensures { Changed (book_of before.now.tables) text.now list work result }
{
    let mut extra = Extra::new();
    let order = read_change(text, &mut extra)?;
    if list < LIST_PLACES || work < WORK_WORDS {
        return Err(Refusal::from(Cause::TooShort));
    }
    let mut draft = *before;
    match enter_in(&mut draft, order.way, order.change, &extra) {
        Ok(()) => Ok(draft),
        Err(cause) => Err(Refusal { cause, line: 1 }),
    }
}
