// What can be removed under aar, and by whom.
ghost use Rattle.std.specs.Prelude.{◌≡◌, ◌*◌};
ghost use Rattle.meaning.specs.Measures.{roles, rows};
ghost use Rattle.theory.specs.Removing.{EveryRuleHasAnActor, RemovingReachesLeastState};

use meaning::{ROLES, ROWS, Regime};

// For each user with a row and each role, at most one.
const MOST_REMOVALS: usize = ROWS * ROLES;

/// The regime under which no rule ever lacks an actor.
pub fn every_rule_has_an_actor() -> Regime
    ensures { EveryRuleHasAnActor result }
{
    Regime::Aar
}

/// The most steps in which delegates remove all that revoke rules target, under aar.
pub fn most_removals() -> usize
    ensures reached { RemovingReachesLeastState (rows * roles) }
    ensures number { result ≡ rows * roles }
{
    MOST_REMOVALS
}
