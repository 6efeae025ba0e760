// The one canonical text of a whole board.
#![tactic(auto)]

ghost use Rattle.boardtext.specs.Reopening.{Fits, OneBook, ReadsBack, Reopens};

/// The theorems on the canonical text of a board: it fits, it is read back to the board's book and to no other, and it opens that book again.
pub fn canonical_board_stands()
    ensures fits { Fits }
    ensures reads { ReadsBack }
    ensures opens { Reopens }
    ensures one { OneBook }
{}
