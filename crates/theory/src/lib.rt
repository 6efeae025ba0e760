// What follows from what a board means: theorems, each on the contract of a function.
#![tactic(auto)]

mod asking;
mod delegation;
mod granting;
mod hire;
mod place;
mod reach;
mod removing;
mod requirements;
mod worked;

pub use asking::{decided_at, most_steps};
pub use delegation::{closing_exists, closing_is_a_run, delegation_keeps_the_law};
pub use granting::rows_for_a_run;
pub use hire::{hire_exists, hire_stands};
pub use place::Place;
pub use reach::{between, grows, nothing_lost};
pub use removing::{every_rule_has_an_actor, most_removals};
pub use requirements::{foreseen, lasting};
pub use worked::{Worked, premises_met, worked_boards};
