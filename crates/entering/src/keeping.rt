// A draft stays one, whatever line is entered in it.
ghost use Rattle.book.specs.Entering.{Entered, Readable};
ghost use Rattle.drafts.specs.View.{book_of};
ghost use Rattle.book.specs.Says.{line_entry};

use crate::enter::enter;
use book::Cause;
use drafts::Draft;
use lines::{Change, Extra};
use texts::Way;

// Puts what a line names into the draft, or takes it out.
pub(crate) fn enter_in(
    draft: &mut Draft,
    way: Way,
    change: Change,
    extra: &Extra,
) -> Result<(), Cause>
    requires { Readable change extra.now }
    ensures { (e : Readable change extra.now) → Entered way (book_of draft.old.tables) (line_entry e.line) result (book_of draft.new.tables) }
{
    enter(&mut draft.tables, way, change, extra)
}
