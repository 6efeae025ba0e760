// The report of a board text and a question.
ghost use Rattle.std.specs.Prelude.{◌≡◌, ℕ, length, slice_index};
ghost use Rattle.report.specs.Reports.{OpenedAndReported};

use crate::telling::report_of;
use board::Board;
use book::Refusal;
use deciding::RunStep;

/// Opens the text on a board of its own, answers the question there, and writes the report at the front of the place: how long it is.
///
/// Where the text or the question is refused (docs/REFUSALS.md), or the report is longer than the place, the place is left as it was.
/// The list needs 8,512 places and the work table 133 words; the list holds the run that is told, and every word is zero at the end.
pub fn report(
    text: &[u8],
    question: &[u8],
    list: &mut [RunStep],
    work: &mut [u64],
    place: &mut [u8],
) -> Result<usize, Refusal>
    ensures reported { OpenedAndReported text.now question.now list.old (length work.old) place.old result list.new place.new }
    ensures clean { (k : ℕ) → slice_index work.new k ≡ 0 }
{
    let mut board = Board::new();
    board.open(text, list, work)?;
    report_of(&board, question, list, work, place)
}
