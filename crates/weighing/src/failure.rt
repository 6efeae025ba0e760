// The first requirement that does not stand: its number, and the run that shows it.
ghost use Rattle.std.specs.Prelude.{◌≡◌};
ghost use Rattle.weighing.specs.Weighing.{cause_of};

use book::Cause;
use verdicts::Shown;

#[derive(Clone, Copy)]
pub struct Failure {
    pub requirement: usize,
    pub run: Shown,
}

impl From<Failure> for Cause {
    ghost from_gives = { λ f c. c ≡ cause_of f };

    fn from(failure: Failure) -> Cause {
        Cause::RequirementFails {
            requirement: failure.requirement,
            steps: failure.run.steps,
            adds: failure.run.adds,
        }
    }
}
