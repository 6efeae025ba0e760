// Refusals, and the requirement that one of them names.
ghost use Rattle.pen.specs.Puts.{Wrote};
ghost use Rattle.saving.specs.Canonical.{Saved};
ghost use Rattle.report.specs.Texts.{refusal_text, failure_text};

use crate::runs::{steps_of, write_run};
use book::{Cause, Refusal};
use deciding::RunStep;
use pen::Writer;
use saving::place::save;
use verdicts::Shown;

/// The line that tells a refusal: its number, and the line that it names.
pub fn write_refusal(w: &mut Writer, refusal: Refusal)
    ensures { Wrote w.old (refusal_text refusal) w.new }
{
    w.bytes(b"refused ");
    w.number(refusal.cause.number() as u64);
    w.bytes(b" line ");
    w.number(refusal.line as u64);
    w.byte(b'\n');
}

/// Where a requirement failed, its number, the length of the run that shows it, and the steps of that run; else nothing.
pub fn write_failure(w: &mut Writer, cause: Cause, list: &[RunStep])
    ensures { Wrote w.old (failure_text cause list.now) w.new }
{
    if let Cause::RequirementFails {
        requirement,
        steps,
        adds,
    } = cause
    {
        let run = steps_of(Shown { adds, steps }, list);
        w.bytes(b"requirement ");
        w.number(requirement as u64);
        w.bytes(b" run ");
        w.number(run.len() as u64);
        w.byte(b'\n');
        write_run(w, run, adds);
    }
}

/// Writes the line of a refusal at the front of the place, and says how long it is; a place that is too short is left as it was.
pub fn refusal_line(place: &mut [u8], refusal: Refusal) -> Option<usize>
    ensures { Saved (refusal_text refusal) place.old result place.new }
{
    save(place, |w| write_refusal(w, refusal))
}
