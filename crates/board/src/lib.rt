// A board: its tables, sealed by what every call needs and keeps, and the calls that change or question it.
#![tactic(auto)]

mod asking;
mod board;
mod delegates;
mod filing;
mod opening;
mod present;
mod replies;

pub use board::Board;
pub use replies::Answer;
