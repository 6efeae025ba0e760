// Questions about what can become of the board.
ghost use Rattle.std.specs.Prelude.{◌≡◌, ℕ, length, slice_index};
ghost use Rattle.board.specs.View.{says};
ghost use Rattle.book.specs.Calls.{asking};
ghost use Rattle.board.specs.Answers.{Lent, verdict_by};

use crate::board::Board;
use crate::replies::Answer;
use book::{Cause, Refusal};
use deciding::RunStep;
use reading::read_inquiry;
use verdicts::{Work, decide};

// Answers with a work table that is wiped by the caller.
fn answer(
    board: &Board,
    text: &[u8],
    list: &mut [RunStep],
    work: &mut [u64],
) -> Result<Answer, Refusal>
    ensures { Lent (asking text.now) list.old (length work.old) (says board.now) (verdict_by result) (says board.now) list.new }
{
    let inquiry = read_inquiry(text)?;
    let verdict = decide(&board.valid, &inquiry, list, work).or(Err(Cause::TooShort))?;
    Ok(Answer {
        kind: inquiry.kind,
        verdict,
    })
}

impl Board {
    /// Answers the question that the text poses: its kind and the exact verdict over all that delegates could ever do; or refuses it (docs/REFUSALS.md).
    ///
    /// Where a run shows the verdict, it stands at the front of the list, which is else as it was. The list needs 8,512 places and the work table 133 words, every one of which is zero at the end.
    pub fn ask(
        &self,
        text: &[u8],
        list: &mut [RunStep],
        work: &mut [u64],
    ) -> Result<Answer, Refusal>
        ensures outcome { Lent (asking text.now) list.old (length work.old) (says self.now) (verdict_by result) (says self.now) list.new }
        ensures clean { (k : ℕ) → slice_index work.new k ≡ 0 }
    {
        let guard = Work { words: work };
        answer(self, text, list, guard.words)
    }
}
