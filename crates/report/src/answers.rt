// The answer to a question.
ghost use Rattle.std.specs.Prelude.{◌≡◌};
ghost use Rattle.pen.specs.Puts.{Wrote};
ghost use Rattle.report.specs.Texts.{kind_word, yes_word, report_text};
ghost use Rattle.board.specs.Answers.{shown_by};

use crate::runs::{steps_of, write_run};
use board::Answer;
use deciding::RunStep;
use meaning::Kind;
use pen::Writer;

fn kind_word(kind: Kind) -> &'static [u8]
    ensures { result.now ≡ kind_word kind }
{
    match kind {
        Kind::Possible => b"possible",
        Kind::Necessary => b"necessary",
    }
}

fn yes_word(yes: bool) -> &'static [u8]
    ensures { result.now ≡ yes_word yes }
{
    if yes { b"yes" } else { b"no" }
}

/// Kind and verdict, and where a run is handed out its length and its steps.
pub fn write_answer(w: &mut Writer, answer: &Answer, list: &[RunStep])
    ensures { Wrote w.old (report_text answer.now.kind answer.now.verdict.yes (shown_by answer.now.verdict.run list.now)) w.new }
{
    w.bytes(kind_word(answer.kind));
    w.byte(b' ');
    w.bytes(yes_word(answer.verdict.yes));
    match answer.verdict.run {
        Some(shown) => {
            let run = steps_of(shown, list);
            w.byte(b' ');
            w.number(run.len() as u64);
            w.byte(b'\n');
            write_run(w, run, shown.adds);
        }
        None => w.byte(b'\n'),
    }
}
