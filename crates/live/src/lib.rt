// What the rules permit on the board as it is now.
#![tactic(auto)]

mod rules;

pub use rules::{may_add, may_remove};
