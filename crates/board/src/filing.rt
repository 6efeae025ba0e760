// Saving a board as its one canonical text.
ghost use Rattle.std.specs.Prelude.{◌≤◌, length};
ghost use Rattle.texts.specs.Lengths.{longest_text};
ghost use Rattle.boardtext.specs.Canonical.{canonical_board};
ghost use Rattle.board.specs.View.{says};
ghost use Rattle.board.specs.Saving.{SavedAs, Restores};

use crate::board::Board;
use book::{Cause, Refusal};

impl Board {
    /// Writes the canonical text at the front of the place, and says how long it is; a place that is too short is refused with 7 and left as it was.
    ///
    /// No board's text is longer than a board text may be (65,536 bytes), and each opens to an equal board (docs/FORMAT.md).
    pub fn save(&self, place: &mut [u8]) -> Result<usize, Refusal>
        ensures saved { SavedAs (says self.now) place.old result place.new }
        ensures fits { length (canonical_board (says self.now)) ≤ longest_text }
        ensures restores { Restores (says self.now) }
    {
        storing::save(&self.valid.tables, place).ok_or(Refusal::from(Cause::TooShort))
    }
}
