// How sets of users stand in text: words, numbers and signs, how far a set goes, and how large it is.
#![tactic(auto)]

mod grounds;
mod reader;
mod sizes;
mod tokens;

pub use grounds::Ground;
pub use reader::Reader;
pub use sizes::Size;
pub use tokens::{Part, Token};

pub mod read;
pub mod scan;
