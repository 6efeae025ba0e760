// Tables in good order, on their way to a board.
#![tactic(auto)]

mod draft;

pub use draft::Draft;
