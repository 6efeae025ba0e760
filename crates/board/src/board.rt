// The sealed board: its tables are sound and in good order, and every standing requirement is safe in all that delegates can reach.
ghost use Rattle.std.specs.Prelude.{ℕ};
ghost use Rattle.meaning.specs.Lists.{Nth};
ghost use Rattle.meaning.specs.Requirements.{Requirement, Stands};
ghost use Rattle.tables.specs.View.{policy_of, state_of, requirements_of};
ghost use Rattle.drafts.specs.Neat.{Neat};

use soundness::Valid;

#[derive(Clone, Copy)]
pub struct Board {
    pub valid: Valid,
    ghost neat: { (Neat valid.tables → ⊥) → ⊥ },
    ghost lasting: { (k : ℕ) (d : Requirement) → Nth k d (requirements_of valid.tables) → (Stands (policy_of valid.tables) (state_of valid.tables) d → ⊥) → ⊥ },
}
