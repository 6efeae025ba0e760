// Lines, changes and questions: read from text, or refused with the ground of the smallest number.
#![tactic(auto)]

mod change;
mod keyword;
mod parts;

pub use change::{Change, Extra};
pub use keyword::Keyword;
pub use parts::{Assigned, Names, Row, Sizes};

pub mod assign;
pub mod lists;
pub mod rows;
pub mod sides;
