// Opening a board text, and the officer's change: a draft is made, weighed as a whole, and committed by one assignment.
ghost use Rattle.std.specs.Prelude.{◌≡◌, ℕ, length, OnErr, slice_index};
ghost use Rattle.book.specs.Calls.{opening, changing};
ghost use Rattle.board.specs.Answers.{Lent, done_by};
ghost use Rattle.board.specs.View.{says};

use crate::board::Board;
use book::Refusal;
use deciding::RunStep;
use drafts::Draft;
use entering::{changed, opened};
use verdicts::Work;
use weighing::weigh;

impl Board {
    /// Replaces all that the board says by what the text says, or refuses it and leaves the board as it was (docs/FORMAT.md, docs/REFUSALS.md).
    ///
    /// It needs a list of 8,512 places and a work table of 133 words. A refusal 18 writes the run that shows it at the front of the list, which is else as it was; every word of the work table is zero at the end.
    pub fn open(
        &mut self,
        text: &[u8],
        list: &mut [RunStep],
        work: &mut [u64],
    ) -> Result<(), Refusal>
        ensures outcome { Lent (opening text.now) list.old (length work.old) (says self.old) (done_by result) (says self.new) list.new }
        ensures same { OnErr result (self.new ≡ self.old) }
        ensures clean { (k : ℕ) → slice_index work.new k ≡ 0 }
    {
        let guard = Work { words: work };
        let draft = opened(text)?;
        let valid = weigh(&draft, list, guard.words)?;
        *self = Board { valid };
        Ok(())
    }

    /// Makes the officer's change that the text says, or refuses it and leaves the board as it was (docs/FORMAT.md, docs/REFUSALS.md).
    ///
    /// List and work table are needed and left as in `open`.
    pub fn change(
        &mut self,
        text: &[u8],
        list: &mut [RunStep],
        work: &mut [u64],
    ) -> Result<(), Refusal>
        ensures outcome { Lent (changing text.now) list.old (length work.old) (says self.old) (done_by result) (says self.new) list.new }
        ensures same { OnErr result (self.new ≡ self.old) }
        ensures clean { (k : ℕ) → slice_index work.new k ≡ 0 }
    {
        let guard = Work { words: work };
        let before = Draft {
            tables: self.valid.tables,
        };
        let draft = changed(&before, text, list.len(), guard.words.len())?;
        let valid = weigh(&draft, list, guard.words)?;
        *self = Board { valid };
        Ok(())
    }
}
