// A run, a line for each of its steps.
ghost use Rattle.std.specs.Prelude.{◌≡◌, take};
ghost use Rattle.verdicts.specs.Looking.{change_of, as_changes};
ghost use Rattle.pen.specs.Puts.{Wrote};
ghost use Rattle.report.specs.Texts.{does_word, step_text, run_text};

use deciding::RunStep;
use pen::Writer;
use verdicts::Shown;

// The steps of a run that stands at the front of a list.
pub(crate) fn steps_of(run: Shown, list: &[RunStep]) -> &[RunStep]
    ensures { result.now ≡ take run.steps list.now }
{
    &list[..run.steps.min(list.len())]
}

fn does_word(adds: bool) -> &'static [u8]
    ensures { result.now ≡ does_word adds }
{
    if adds { b" adds u" } else { b" removes u" }
}

// Actor, what is done, user, role and rule.
fn write_step(w: &mut Writer, step: RunStep, adds: bool)
    ensures { Wrote w.old (step_text (change_of adds step)) w.new }
{
    w.byte(b'u');
    w.number(step.actor.number() as u64);
    w.bytes(does_word(adds));
    w.number(step.user.number() as u64);
    w.bytes(b" r");
    w.number(step.role.number() as u64);
    w.bytes(b" rule ");
    w.number(step.rule as u64);
    w.byte(b'\n');
}

pub(crate) fn write_run(w: &mut Writer, run: &[RunStep], adds: bool)
    ensures { Wrote w.old (run_text (as_changes adds run.now)) w.new }
{
    for step in run {
        write_step(w, *step, adds);
    }
}
