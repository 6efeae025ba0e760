// Whether a set holds no role and no permission, so that no run changes it.
ghost use Rattle.std.specs.Prelude.{◌≡◌, Decides};
ghost use Rattle.meaning.specs.Sets.{Static};
ghost use Rattle.tables.specs.View.{set_of};
ghost use Rattle.questions.specs.Statics.{still, all_still};

use trees::{Node, UserTree};

fn is_still(node: Node) -> bool
    ensures { result ≡ still node }
{
    !matches!(node, Node::Role(_) | Node::Permission(_))
}

fn all_still(nodes: &[Node]) -> bool
    ensures { result ≡ all_still nodes.now }
{
    nodes.iter().all(|node| is_still(*node))
}

pub(crate) fn is_static(set: &UserTree) -> bool
    ensures { Decides result (Static (set_of set.now.nodes)) }
{
    all_still(set.nodes.entries())
}
