// Who is looked at for a question, and the masks of roles that it is worked out with.
#![tactic(auto)]

mod masks;
mod plans;
mod slots;

pub use masks::masks_of;
pub use plans::plan_of;
pub use slots::is_trusted;
