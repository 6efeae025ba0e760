// The words that lines and questions begin with.
#[derive(Clone, Copy, PartialEq, Eq, Debug)]
pub enum Keyword {
    Ua,
    Pa,
    Rh,
    Trust,
    Assign,
    Revoke,
    Always,
    Never,
    Possible,
    Necessary,
}
