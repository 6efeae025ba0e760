// Where questions are decided, and how long a run is that shows it.
ghost use Rattle.std.specs.Prelude.{◌≡◌};
ghost use Rattle.meaning.specs.Measures.{list_places};
ghost use Rattle.theory.specs.Asking.{VerdictExact};
ghost use Rattle.theory.specs.Verdicts.{VerdictHasWitness};

use crate::place::Place;
use meaning::{Kind, LIST_PLACES, Side};

// No run that is shown is longer.
const MOST_STEPS: usize = LIST_PLACES;

/// The state in which a question with this side fixed is decided. With a fixed larger side a question is truest in the least state, with a fixed smaller side in the greatest:
/// 'possible' looks where it is truest, 'necessary' where it is least true.
pub fn decided_at(kind: Kind, fixed: Side) -> Place
    ensures { VerdictExact kind fixed result }
{
    match (kind, fixed) {
        (Kind::Possible, Side::Larger) => Place::LeastState,
        (Kind::Possible, Side::Smaller) => Place::GreatestState,
        (Kind::Necessary, Side::Larger) => Place::GreatestState,
        (Kind::Necessary, Side::Smaller) => Place::LeastState,
    }
}

/// The most steps that a run need have which shows a verdict: one for each tracked user, or the hire, and each role.
pub fn most_steps() -> usize
    ensures shown { VerdictHasWitness list_places }
    ensures number { result ≡ list_places }
{
    MOST_STEPS
}
