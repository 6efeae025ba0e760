// Tables that are a board's. Where one is had, what the checks found holds with no further check.
ghost use Rattle.std.specs.Prelude.{◌≡◌, [], MatchOption};
ghost use Rattle.tables.specs.View.{state_of, policy_of, requirements_of};
ghost use Rattle.soundness.specs.Valid.{Sound};
ghost use Rattle.tables.specs.Fresh.{nothing_assigned, new_policy};

use crate::checks::is_sound;
use tables::Tables;

#[derive(Clone, Copy)]
pub struct Valid {
    pub tables: Tables,
    ghost sound: { (Sound tables → ⊥) → ⊥ },
}

impl Valid {
    /// These tables, sealed; none where they are no board's.
    pub fn new(tables: Tables) -> Option<Valid>
        ensures { MatchOption result (Sound tables → ⊥) (λ v. (v.tables ≡ tables) × Sound tables) }
    {
        if is_sound(&tables) {
            Some(Valid { tables })
        } else {
            None
        }
    }

    /// A new board: under aatu, and nothing else.
    pub fn new_board() -> Valid
        ensures policy { policy_of result.tables ≡ new_policy }
        ensures state { state_of result.tables ≡ nothing_assigned }
        ensures requirements { requirements_of result.tables ≡ [] }
    {
        let tables = Tables::new();
        Valid { tables }
    }

    pub fn tables(&self) -> &Tables
        ensures is { result.now ≡ self.now.tables }
        ensures sound { Sound result.now }
    {
        &self.tables
    }
}
