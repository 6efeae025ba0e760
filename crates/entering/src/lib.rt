// What the lines of a text make of a draft: a whole board text, put in line by line, and an officer's change.
#![tactic(auto)]

mod assigns;
mod changing;
mod edges;
mod enter;
mod gifts;
mod keeping;
mod nodes;
mod opening;
mod pairs;
mod regime;
mod requirements;
mod revokes;
mod trusts;

pub use changing::changed;
pub use opening::opened;
