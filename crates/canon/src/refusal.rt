use std::fmt;
use texts::Fault;

// The number of the refusal of a line that names more than a table holds, whatever the board.
const FULL: u8 = 13;

/// Why a text is not printed: a fault that it is refused for, or a line that trusts more users than a board has places for.
#[derive(Clone, Copy, Debug, PartialEq, Eq)]
pub enum Refusal {
    Text(Fault),
    Crowded { line: usize },
}

impl From<Fault> for Refusal {
    fn from(fault: Fault) -> Refusal {
        Refusal::Text(fault)
    }
}

impl fmt::Display for Refusal {
    fn fmt<W: fmt::Write>(&self, f: &mut fmt::Formatter<W>) -> fmt::Result {
        match self {
            Refusal::Text(fault) => write!(f, "{fault}"),
            Refusal::Crowded { line } => write!(f, "refused {FULL} line {line}"),
        }
    }
}
