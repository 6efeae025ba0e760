// Questions that can be asked of a board, valid by type.
#![tactic(auto)]

mod asked;
mod inquiry;
mod naming;
mod statics;

pub use inquiry::Inquiry;
