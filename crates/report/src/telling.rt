// A report: a question of a board answered, and what is told of the answer.
ghost use Rattle.std.specs.Prelude.{◌≡◌, ℕ, length, slice_index};
ghost use Rattle.saving.specs.Canonical.{Saved};
ghost use Rattle.board.specs.View.{says};
ghost use Rattle.board.specs.Answers.{shown_by};
ghost use Rattle.report.specs.Texts.{report_text};
ghost use Rattle.report.specs.Reports.{Reported};

use crate::answers::write_answer;
use board::{Answer, Board};
use book::{Cause, Refusal};
use deciding::RunStep;
use saving::place::save;

/// Writes the report of an answer, whose run stands in the list, at the front of the place, and says how long it is; none where this report is longer than the place, which is then as it was (docs/FORMAT.md).
pub fn answer_report(place: &mut [u8], answer: &Answer, list: &[RunStep]) -> Option<usize>
    ensures { Saved (report_text answer.now.kind answer.now.verdict.yes (shown_by answer.now.verdict.run list.now)) place.old result place.new }
{
    save(place, |w| write_answer(w, answer, list))
}

/// Answers the question that the text poses of the board, and writes the report at the front of the place: how long it is.
///
/// A refused question leaves the place as it was. So does a report that is longer than the place, which is refused with 7 (docs/REFUSALS.md); the list then holds the run that it tells.
/// The list needs 8,512 places and the work table 133 words, every one of which is zero at the end.
pub fn report_of(
    board: &Board,
    text: &[u8],
    list: &mut [RunStep],
    work: &mut [u64],
    place: &mut [u8],
) -> Result<usize, Refusal>
    ensures reported { Reported (says board.now) text.now list.old (length work.old) place.old result list.new place.new }
    ensures clean { (k : ℕ) → slice_index work.new k ≡ 0 }
{
    let answer = board.ask(text, list, work)?;
    answer_report(place, &answer, list).ok_or(Refusal::from(Cause::TooShort))
}
