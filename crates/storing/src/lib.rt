// Boards written in their one canonical form.
#![tactic(auto)]

mod entry;
mod rows;
mod rules;
mod whole;

pub use whole::{board_size, save};
