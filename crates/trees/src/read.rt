ghost use Rattle.std.specs.Prelude.{◌≡◌, ℕ, ◌<◌, List, MatchOption};
ghost use Rattle.grammar.specs.Text.{rest};
ghost use Rattle.trees.specs.Reading.{Built, LeftOf, OneReading, told, add, leaf_at, user_at, users_at, braces_at, set_at, term_at, factor_at, nodes_in};
ghost use Rattle.trees.specs.Builds.{Builds};
ghost use Rattle.trees.specs.declared.nodes.Node.{Node as ANode};

use crate::nodes::{Node, Nodes, no_nodes};
use grammar::{Ground, Reader};
use meaning::{PERMISSIONS, ROLES, USERS};

// A reader, and the nodes of what it has read.
#[derive(Drop)]
struct Builder<'a> {
    reader: Reader<'a>,
    nodes: Nodes,
}

fn push(nodes: &mut Nodes, node: Node) -> Result<(), Ground>
    ensures { (s : List ℕ) → add node s (nodes_in nodes.old) ≡ told result s (nodes_in nodes.new) }
{
    nodes.push(node).map_err(|_| Ground::Measure)
}

impl<'a> Builder<'a> {
    // Reads a number below the limit, and adds its node.
    fn leaf<F: FnOnce(u32) -> Node>(&mut self, limit: u32, node: F) -> Result<(), Ground>
        requires { (n : ℕ) → n < limit → F.pre node n }
        ensures { (made : ℕ → ANode) → ((n : ℕ) (x : ANode) → n < limit → F.post node n x → x ≡ made n) → Builds (leaf_at made limit) self.old result self.new }
    {
        let Some(n) = self.reader.number() else {
            return Err(Ground::Syntax);
        };
        if n >= limit {
            return Err(Ground::Range);
        }
        push(&mut self.nodes, node(n))
    }

    fn user(&mut self) -> Result<(), Ground>
        ensures { Builds user_at self.old result self.new }
    {
        if !self.reader.take(b'u') {
            return Err(Ground::Syntax);
        }
        self.leaf(USERS as u32, |n| Node::User(n as u16))
    }

    fn users(&mut self) -> Result<(), Ground>
        ensures { Builds users_at self.old result self.new }
    {
        self.user()?;
        // What is read says where the users end, so there is nothing to iterate over.
        'users: while self.reader.take(b',') {
            self.user()?;
            push(&mut self.nodes, Node::Or)?;
        }
        Ok(())
    }

    // What follows an opening brace.
    fn braces(&mut self) -> Result<(), Ground>
        ensures { Builds braces_at self.old result self.new }
    {
        if self.reader.take(b'}') {
            return push(&mut self.nodes, Node::Nobody);
        }
        self.users()?;
        if self.reader.take(b'}') {
            Ok(())
        } else {
            Err(Ground::Syntax)
        }
    }

    // Reads a set with at most so many levels of parentheses, and adds its nodes.
    // The readers of a set and of its terms are alike. One for both would be given its sign, its node, and the reader below it, which calls back into it: no plainer than the two.
    #[cycle(factor_set_term)]
    fn set(&mut self, levels: u8) -> Result<(), Ground>
        ensures { Builds (set_at levels) self.old result self.new }
    {
        self.term(levels)?;
        // What is read says where the terms end.
        'terms: loop {
            match self.reader.sign() {
                Some('|') => {
                    self.reader.skip();
                    self.term(levels)?;
                    push(&mut self.nodes, Node::Or)?;
                }
                _ => return Ok(()),
            }
        }
    }

    #[cycle(factor_set_term)]
    fn term(&mut self, levels: u8) -> Result<(), Ground>
        ensures { Builds (term_at levels) self.old result self.new }
    {
        self.factor(levels)?;
        // What is read says where the factors end.
        'factors: loop {
            match self.reader.sign() {
                Some('&') => {
                    self.reader.skip();
                    self.factor(levels)?;
                    push(&mut self.nodes, Node::And)?;
                }
                _ => return Ok(()),
            }
        }
    }

    #[cycle(factor_set_term)]
    fn factor(&mut self, levels: u8) -> Result<(), Ground>
        ensures { Builds (factor_at levels) self.old result self.new }
    {
        match self.reader.sign() {
            Some('(') => {
                self.reader.skip();
                if levels == 0 {
                    return Err(Ground::Measure);
                }
                self.set(levels - 1)?;
                if self.reader.take(b')') {
                    Ok(())
                } else {
                    Err(Ground::Syntax)
                }
            }
            Some('r') => {
                self.reader.skip();
                self.leaf(ROLES as u32, |n| Node::Role(n as u8))
            }
            Some('p') => {
                self.reader.skip();
                self.leaf(PERMISSIONS as u32, |n| Node::Permission(n as u8))
            }
            Some('{') => {
                self.reader.skip();
                self.braces()
            }
            _ => Err(Ground::Syntax),
        }
    }
}

/// Reads the set at the place into nodes, and leaves what follows it. There is none where no set stands there whose numbers
/// are in range, with at most so many levels of parentheses and at most 32 operands; then nothing is taken. Such a text
/// begins with one set only.
pub fn side(r: &mut Reader, levels: u8) -> Option<Nodes>
    ensures built { Built levels (rest r.old) result (rest r.new) }
    ensures left { MatchOption result (rest r.new ≡ rest r.old) (λ _. LeftOf (rest r.old) (rest r.new)) }
    ensures one { OneReading levels (rest r.old) }
{
    let mut builder = Builder {
        reader: Reader::new(r.rest(), r.line()),
        nodes: no_nodes(),
    };
    match builder.set(levels) {
        Ok(()) => {
            *r = builder.reader;
            Some(builder.nodes)
        }
        Err(_) => None,
    }
}
