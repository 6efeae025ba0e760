// Writing into a lent place: bytes, numbers, lists, and sets in their one canonical form.
#![tactic(auto)]

mod spot;
mod writer;

pub use spot::Spot;
pub use writer::Writer;

pub mod lists;
pub mod write;
