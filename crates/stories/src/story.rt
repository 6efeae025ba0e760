// The board of a story.
ghost use Rattle.book.specs.Stories.{IsReached};
ghost use Rattle.board.specs.View.{says};

use board::Board;

/// A board to which some story of calls led, made one after another from a new board on.
#[derive(Clone, Copy)]
pub struct Story {
    pub(crate) board: Board,
    ghost reached: { ∥ IsReached (says board) ∥₁ },
}
