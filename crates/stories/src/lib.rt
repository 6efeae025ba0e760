// Stories: calls in any order, from a new board on.
#![tactic(auto)]

mod call;
mod calling;
mod calls;
mod numbers;
mod story;
mod telling;
mod turn;

pub use call::{Call, Reply};
pub use calls::Calls;
pub use numbers::{add, has_permission, is_member, remove};
pub use story::Story;
pub use telling::tell;
pub use turn::Turn;
