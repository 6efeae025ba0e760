// Whole lines, officers' changes, questions and board texts.
#![tactic(auto)]

mod faults;

pub use faults::{Fault, Order, Way};

pub mod alone;
pub mod board;
pub mod line;
