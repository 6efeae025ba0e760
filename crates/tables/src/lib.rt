// What a board holds, in plain tables of fixed size, and the meaning of it.
#![tactic(auto)]

mod calls;
mod entries;
mod fresh;
mod lookup;
mod rows;
mod tables;

pub use bounded::{Bounded, Full};
pub use calls::RowsFull;
pub use entries::{AssignEntry, Demand, Needs, RequirementEntry, RevokeEntry, Row};
pub use rows::Rows;
pub use tables::Tables;
