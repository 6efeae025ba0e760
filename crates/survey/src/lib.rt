// Whole board texts: the regime, or the first fault.
#![tactic(auto)]

ghost use Rattle.std.specs.Prelude.{Decides};
ghost use Rattle.meaning.specs.Sets.{SemiStatic};
ghost use Rattle.lines.specs.Bodies.{Sides, sides};
ghost use Rattle.survey.specs.Whole.{WholeText};
ghost use Rattle.lines.specs.Bodies.{question_of};

use grammar::Reader;
use lines::Extra;
use meaning::Regime;
use texts::Fault;
use texts::board::{begin, next};

/// Reads all of a board text: its regime, or its first fault.
pub fn check(text: &[u8], extra: &mut Extra) -> Result<Regime, Fault>
    ensures { WholeText text.now result }
{
    let mut r = Reader::new(text, 1);
    let regime = begin(&mut r)?;
    'lines: while let Some(_) = next(&mut r, extra)? {}
    Ok(regime)
}

/// The test that the readers make of two sets decides what is semi-static in the meaning.
pub fn semi_static_stands()
    ensures { (x : Sides) → Decides (sides.semi_static x) (SemiStatic (question_of x)) }
{}
