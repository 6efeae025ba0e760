// What a question is worked out from: the users it looks at, and what they can make of the board by adding.
#![tactic(auto)]

mod delegating;
mod delegation;
mod masks;
mod plan;
mod runs;
mod sets;

pub use delegation::Delegation;
pub use masks::Masks;
pub use plan::{Plan, Slot};
pub use runs::RunStep;
pub use sets::{condition, in_set, member};
