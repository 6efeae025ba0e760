ghost use Rattle.std.specs.Prelude.{◌≡◌, []};
ghost use Rattle.trees.specs.Reading.{nodes_in};

use bounded::Bounded;
use meaning::QUESTION_OPERANDS;

/// How many nodes a set has at most: its operands, and the operators between them.
pub const NODES: usize = 2 * QUESTION_OPERANDS - 1;

#[derive(Clone, Copy, Debug, PartialEq, Eq)]
pub enum Node {
    Role(u8),
    Permission(u8),
    User(u16),
    Nobody,
    Or,
    And,
}

/// Plain nodes in a fixed table, operators behind their operands.
pub type Nodes = Bounded<Node, NODES>;

/// No nodes.
pub fn no_nodes() -> Nodes
    ensures { nodes_in result ≡ [] }
{
    Bounded::new(Node::Nobody)
}
