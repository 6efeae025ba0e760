// Sets of users as postfix nodes: read from text, and valid by type.
#![tactic(auto)]

mod nodes;
mod tree;

pub use nodes::{NODES, Node, Nodes, no_nodes};
pub use tree::UserTree;

pub mod check;
pub mod read;
