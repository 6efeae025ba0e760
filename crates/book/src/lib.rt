// What a board says, in the words of the meaning: its book, the one table of refusals, and what each call makes of it.
#![tactic(auto)]

mod faults;
mod refusal;

pub use refusal::{Cause, Refusal};
