// The least state and the closed states, between which every reachable state lies.
ghost use Rattle.theory.specs.Reach.{ReachableStatesBounded, AuthorityIsMonotone, NothingLost};

use crate::place::Place;
use meaning::{Regime, Side};

/// What more assigned roles make of memberships, met conditions and sets: they are larger.
pub fn grows() -> Side
    ensures { AuthorityIsMonotone result }
{
    Side::Larger
}

/// How every reachable state compares with the least state, and with a closed state above the present one.
pub fn between(place: Place) -> Side
    ensures { ReachableStatesBounded place result }
{
    match place {
        Place::LeastState => Side::Larger,
        Place::GreatestState => Side::Smaller,
    }
}

/// The regime under which nothing that is assigned is ever lost.
pub fn nothing_lost() -> Regime
    ensures { NothingLost result }
{
    Regime::Aatu
}
