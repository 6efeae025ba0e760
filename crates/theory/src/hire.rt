// One hire represents all users without a row whom the question does not name.
ghost use Rattle.std.specs.Prelude.{◌≡◌};
ghost use Rattle.meaning.specs.Measures.{users};
ghost use Rattle.theory.specs.Hire.{HireExists, HireRepresentsOthers};
ghost use Rattle.theory.specs.Laws.{RulesDelegable};

use meaning::USERS;

// Fewer users than this with a row, named or trusted leave one for a hire.
const ENOUGH_FOR_A_HIRE: usize = USERS;

// The hire represents those not tracked among so many users.
const STOOD_FOR: usize = USERS;

/// How many users there are: always more than have a row, are named or are trusted.
pub fn hire_exists() -> usize
    ensures exists { HireExists users }
    ensures number { result ≡ users }
{
    ENOUGH_FOR_A_HIRE
}

/// Among how many users one hire represents all who are not tracked: all there are.
/// The rules keep the laws that this is argued from: a stricter rule that keeps them needs no new argument.
pub fn hire_stands() -> usize
    ensures laws { RulesDelegable }
    ensures stands { HireRepresentsOthers users }
    ensures number { result ≡ users }
{
    STOOD_FOR
}
