ghost use Rattle.std.specs.Prelude.{◌≡◌};
ghost use Rattle.texts.specs.Answers.{told};

use grammar::Ground;
use lines::Change;
use std::fmt;

/// Why a text is refused, whatever the board: its length, its mark, or a line of it.
#[derive(Clone, Copy, Debug, PartialEq, Eq)]
pub enum Fault {
    TooLong,
    Mark,
    InLine { ground: Ground, line: usize },
}

#[derive(Clone, Copy, Debug, PartialEq, Eq)]
pub enum Way {
    Add,
    Remove,
}

/// An officer's change: what a line names is added or removed.
#[derive(Clone, Copy)]
pub struct Order {
    pub way: Way,
    pub change: Change,
}

impl Fault {
    /// The number of the refusal, as the format has it.
    pub fn number(self) -> u8
        ensures { result ≡ (told self).number }
    {
        match self {
            Fault::TooLong => 1,
            Fault::Mark => 2,
            Fault::InLine { ground, .. } => match ground {
                Ground::Syntax => 3,
                Ground::Range => 4,
                Ground::Measure => 5,
                Ground::NotSemiStatic => 6,
            },
        }
    }

    /// The line that the refusal names; 0 stands for the text as a whole, as the format has it.
    pub fn line(self) -> usize
        ensures { result ≡ (told self).line }
    {
        match self {
            Fault::TooLong => 0,
            Fault::Mark => 1,
            Fault::InLine { line, .. } => line,
        }
    }
}

impl fmt::Display for Fault {
    fn fmt<W: fmt::Write>(&self, f: &mut fmt::Formatter<W>) -> fmt::Result {
        write!(f, "refused {} line {}", self.number(), self.line())
    }
}
