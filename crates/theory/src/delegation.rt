// Delegation as a step system, and its closing as a run.
ghost use Rattle.std.specs.Prelude.{◌≡◌};
ghost use Rattle.meaning.specs.Measures.{list_places};
ghost use Rattle.theory.specs.Delegation.{ClosingIsARun, DelegationKeepsTheLaw};
ghost use Rattle.theory.specs.Premises.{ClosingExists};

use meaning::LIST_PLACES;

// The facts are pairs of tracked user and role, numbered below this.
const FACTS: usize = LIST_PLACES;

// A run of addings makes each such pair at most once.
const MOST_ADDED: usize = LIST_PLACES;

// No closing need be longer.
const CLOSED_WITHIN: usize = LIST_PLACES;

/// Below which number the facts of a delegation are numbered.
pub fn delegation_keeps_the_law() -> usize
    ensures lawful { DelegationKeepsTheLaw list_places }
    ensures number { result ≡ list_places }
{
    FACTS
}

/// How many steps a closing among tracked users has at most.
pub fn closing_is_a_run() -> usize
    ensures is_run { ClosingIsARun list_places }
    ensures number { result ≡ list_places }
{
    MOST_ADDED
}

/// Within how many steps there is one, on every board and for every question.
pub fn closing_exists() -> usize
    ensures exists { ClosingExists list_places }
    ensures number { result ≡ list_places }
{
    CLOSED_WITHIN
}
