// When the delegates' calls grant a run.
ghost use Rattle.std.specs.Prelude.{◌≡◌};
ghost use Rattle.meaning.specs.Measures.{rows};
ghost use Rattle.theory.specs.Granting.{RunGranted};

use meaning::ROWS;

// As many as a board has.
const ROWS_FOR_A_RUN: usize = ROWS;

/// In how many rows the calls of delegates grant a run: users with a row, and users without one that it adds to, may be so many together.
pub fn rows_for_a_run() -> usize
    ensures granted { RunGranted rows }
    ensures number { result ≡ rows }
{
    ROWS_FOR_A_RUN
}
