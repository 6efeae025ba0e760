// The one canonical text of each line, and what is written saved at the front of a place.
#![tactic(auto)]

pub mod line;
pub mod place;
