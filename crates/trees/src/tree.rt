ghost use Rattle.std.specs.Prelude.{◌≡◌, true};
ghost use Rattle.trees.specs.Trees.{balanced};
ghost use Rattle.trees.specs.Reading.{nodes_in};

use crate::nodes::Nodes;

/// A set of users that is valid by type: no operator in its nodes lacks an operand, and they leave one set.
#[derive(Clone, Copy)]
pub struct UserTree {
    pub nodes: Nodes,
    ghost whole: { balanced 0 (nodes_in nodes) ≡ true },
}
