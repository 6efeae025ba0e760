ghost use Rattle.std.specs.Prelude.{◌≡◌};
ghost use Rattle.trees.specs.Trees.{is_join, Inverse};
ghost use Rattle.trees.specs.Made.{Made};

use crate::nodes::{Node, Nodes};
use crate::tree::UserTree;

const PAIR: usize = 2;

fn joins(node: Node) -> bool
    ensures { result ≡ is_join node }
{
    matches!(node, Node::Or | Node::And)
}

impl UserTree {
    /// The set whose nodes these are; none where they are no set's.
    pub fn new(nodes: Nodes) -> Option<UserTree>
        ensures made { Made nodes result }
        ensures inverse { Inverse }
    {
        let mut height: usize = 0;
        for node in nodes.entries() {
            if joins(*node) {
                if height < PAIR {
                    return None;
                }
                height -= 1;
            } else {
                height += 1;
            }
        }
        if height == 1 {
            Some(UserTree { nodes })
        } else {
            None
        }
    }
}
