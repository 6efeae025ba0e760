// Sets by their nodes.
ghost use Rattle.std.specs.Prelude.{◌≡◌, Decides};
ghost use Rattle.trees.specs.Reading.{nodes_in};

use trees::Nodes;

pub(crate) fn are_same(one: &Nodes, other: &Nodes) -> bool
    ensures { Decides result (nodes_in one.now ≡ nodes_in other.now) }
{
    one.entries() == other.entries()
}
