// A second step system beside seniority: the stages of a build pipeline, each open once the one before it is done.
ghost use Rattle.std.proofs.Common.{inl, inr};
ghost use Rattle.foundation_checks.specs.Stages.{pipeline};

use steps::StepSystem;
use words::has;

#[derive(Clone, Copy)]
pub struct Pipeline {
    pub stages: usize,
}

impl StepSystem for Pipeline {
    type Record = usize;

    ghost means = { λ x. pipeline x.stages };

    fn facts(&self) -> usize {
        self.stages
    }

    fn steps(&self) -> usize {
        self.stages
    }

    fn makes(&self, step: usize) -> usize {
        step
    }

    fn record(&self, step: usize, facts: &[u64]) -> Option<usize> {
        if step == 0 {
            return Some(step);
        }
        if has(facts, step - 1) {
            return Some(step);
        }
        None
    }

    ghost lawful = { λ x. record { inside = λ s h. h; grows = λ s f g h. elim [ inl e ↦ inl e | inr e ↦ inr (h _ e) ] } };
}
