// A question and a board text in one input, answered in bytes.
ghost use Rattle.std.specs.Prelude.{◌≡◌, ℕ, ◌≤◌, length, slice_index};
ghost use Rattle.report.specs.Inputs.{Splits, InputAnswered};

use crate::refusals::refusal_line;
use crate::whole::report;
use deciding::RunStep;
use grammar::Reader;
use texts::board::cut;

// The two parts of an input.
#[derive(Clone, Copy)]
struct Parts<'a> {
    question: &'a [u8],
    text: &'a [u8],
}

// The first line, without the byte 10 that ends it, and what follows.
fn split(input: &[u8]) -> Parts<'_>
    ensures { Splits input.now result.question.now result.text.now }
{
    let mut r = Reader::new(input, 1);
    match cut(&mut r) {
        Some(question) => Parts {
            question,
            text: r.rest(),
        },
        None => Parts {
            question: input,
            text: &[],
        },
    }
}

/// Answers an input: the question is its first line, up to its first byte 10, and the board text all that follows, empty where there is no byte 10.
///
/// Writes the report at the front of the place, or the line of what refuses the text, the question or the report, and says how many bytes it wrote: none where the place is too short for that line as well. All behind them is as it was (docs/CALLS.md). List and work table are needed and left as in `report`.
pub fn answer_input(input: &[u8], list: &mut [RunStep], work: &mut [u64], place: &mut [u8]) -> usize
    ensures answered { InputAnswered input.now list.old (length work.old) place.old result list.new place.new }
    ensures clean { (k : ℕ) → slice_index work.new k ≡ 0 }
    ensures fits { result ≤ length place.old }
{
    let parts = split(input);
    match report(parts.text, parts.question, list, work, place) {
        Ok(size) => size,
        Err(refusal) => refusal_line(place, refusal).unwrap_or(0),
    }
}
