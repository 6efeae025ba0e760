// Why a line is refused, whatever the board: its syntax, a number out of range, its measure, or a question that is not semi-static.
#[derive(Clone, Copy, Debug, PartialEq, Eq)]
pub enum Ground {
    Syntax,
    Range,
    Measure,
    NotSemiStatic,
}
