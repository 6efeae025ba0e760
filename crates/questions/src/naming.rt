// How many users a set names.
ghost use Rattle.std.specs.Prelude.{◌≡◌, ◌≤◌, length};
ghost use Rattle.questions.specs.Naming.{users_in, is_named, is_inside, AllInside};
ghost use Rattle.trees.specs.Reading.{nodes_in as nodes_of};

use trees::{Node, UserTree};

// A user, who is in range by the type of the number.
fn is_user(node: Node) -> bool
    ensures named { result ≡ is_named node }
    ensures inside { result ≡ is_inside node }
{
    matches!(node, Node::User(_))
}

pub(crate) fn named(set: &UserTree) -> usize
    ensures many { result ≡ length (users_in (nodes_of set.now.nodes)) }
    ensures inside { AllInside (users_in (nodes_of set.now.nodes)) }
    ensures few { result ≤ 63 }
{
    let nodes = set.nodes.entries();
    nodes.iter().filter(|node| is_user(**node)).count()
}
