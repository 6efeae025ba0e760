// A text that is borrowed, the place that is read next, and the number of the line.
ghost use Rattle.std.specs.Prelude.{◌≡◌, ◌≤◌, length};
ghost use Rattle.grammar.specs.Text.{rest, is_nil, Cut};

use std::marker::Model;

/// A caller sees of a reader only the bytes that are left and its line.
#[derive(Drop)]
pub struct Reader<'a> {
    text: &'a [u8],
    place: usize,
    line: usize,
}

impl<'a> Model for Reader<'a> {
    ghost use Rattle.std.specs.Prelude.{◌≤◌, length, drop};
    ghost use Rattle.grammar.specs.Text.{Left};

    ghost Value = { Left };

    ghost view = { λ r. record { bytes = drop r.place r.text.now; line = r.line } };

    ghost invariant = { λ r. r.place ≤ length r.text.now };
}

impl<'a> Reader<'a> {
    /// A reader of this text, which begins in the line of that number.
    pub fn new(text: &'a [u8], line: usize) -> Reader<'a>
        ensures rest { rest result ≡ text.now }
        ensures line { result.line ≡ line }
    {
        Reader {
            text,
            place: 0,
            line,
        }
    }

    /// What is left to read.
    pub fn rest(&self) -> &'a [u8]
        ensures { result.now ≡ rest self.now }
    {
        &self.text[self.place..]
    }

    /// The number of the line.
    pub fn line(&self) -> usize
        ensures { result ≡ self.now.line }
    {
        self.line
    }

    /// Whether all of the text is read.
    pub fn is_at_end(&self) -> bool
        ensures { result ≡ is_nil (rest self.now) }
    {
        self.rest().is_empty()
    }

    // Takes so many bytes.
    pub(crate) fn cut(&mut self, count: usize) -> &'a [u8]
        requires { count ≤ length (rest self.old) }
        ensures parts { Cut count result.now (rest self.old) (rest self.new) }
        ensures line { self.new.line ≡ self.old.line }
    {
        let part = &self.text[self.place..self.place + count];
        self.place += count;
        part
    }
}
