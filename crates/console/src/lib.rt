// What the programs read from standard input.
#![tactic(auto)]

mod input;

pub use input::fill;
