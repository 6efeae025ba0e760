// Sets in their canonical form: each user in its own braces, and no pair of parentheses more than the set needs.
ghost use Rattle.std.specs.Prelude.{◌≡◌, ◌+◌, ◌-◌, ◌≤◌, List, ◌∷◌, ◌++◌, length};
ghost use Rattle.meaning.specs.Sets.{UserSet};
ghost use Rattle.trees.specs.Reading.{postfix};
ghost use Rattle.trees.specs.declared.nodes.Node.{Node as ANode};
ghost use Rattle.pen.specs.Puts.{Wrote};
ghost use Rattle.pen.specs.Texts.{written, leaf, WroteSet};

use crate::spot::Spot;
use crate::writer::Writer;
use trees::Node;

// The signs between the sets that are joined, and those that are met.
const UNION: u8 = b'|';

const MEET: u8 = b'&';

// Where the last set of the nodes begins.
fn begin(nodes: &[Node]) -> usize
    ensures within { result ≤ length nodes.now }
    ensures last { (front : List ANode) (t : UserSet) → nodes.now ≡ front ++ postfix t → result ≡ length front }
{
    let mut need = 1usize;
    for (i, node) in nodes.iter().enumerate().rev() {
        match node {
            Node::Or | Node::And => need += 1,
            _ => need -= 1,
        }
        if need == 0 {
            return i;
        }
    }
    0
}

// Writes an operand.
fn operand(w: &mut Writer, node: Node)
    ensures { Wrote w.old (leaf node) w.new }
{
    match node {
        Node::Role(n) => {
            w.byte(b'r');
            w.number(n as u64);
        }
        Node::Permission(n) => {
            w.byte(b'p');
            w.number(n as u64);
        }
        Node::User(n) => {
            w.bytes(b"{u");
            w.number(n as u64);
            w.byte(b'}');
        }
        _ => w.bytes(b"{}"),
    }
}

// Writes the two sets of these nodes, each at its spot, with a sign between them.
#[cycle(joined_write)]
fn joined(w: &mut Writer, nodes: &[Node], left: Spot, sign: u8, right: Spot)
    ensures { (a b : UserSet) → nodes.now ≡ postfix a ++ postfix b → Wrote w.old (written left a ++ (sign ∷ written right b)) w.new }
{
    let mid = begin(nodes);
    write(w, &nodes[..mid], left);
    w.byte(sign);
    write(w, &nodes[mid..], right);
}

/// Writes the canonical text of the set whose nodes these are. Each user stands in its own braces; nothing that says the set
/// at that spot has fewer pairs of parentheses or fewer levels of them, and nothing else with users so written has as few
/// pairs. Nodes that are no set's leave bytes of which nothing is said.
#[cycle(joined_write)]
pub fn write(w: &mut Writer, nodes: &[Node], spot: Spot)
    ensures { (t : UserSet) → nodes.now ≡ postfix t → WroteSet spot t w.old w.new }
{
    let Some((node, operands)) = nodes.split_last() else {
        return;
    };
    match node {
        Node::Or => {
            if spot == Spot::Set {
                joined(w, operands, Spot::Set, UNION, Spot::Term);
            } else {
                w.byte(b'(');
                joined(w, operands, Spot::Set, UNION, Spot::Term);
                w.byte(b')');
            }
        }
        Node::And => {
            if spot == Spot::Factor {
                w.byte(b'(');
                joined(w, operands, Spot::Term, MEET, Spot::Factor);
                w.byte(b')');
            } else {
                joined(w, operands, Spot::Term, MEET, Spot::Factor);
            }
        }
        _ => operand(w, *node),
    }
}
