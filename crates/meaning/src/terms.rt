// The words of the subject that code and definitions share.

/// Roles are only assigned and trusted users do nothing; or roles are assigned and revoked.
#[derive(Clone, Copy, PartialEq, Eq, Debug)]
pub enum Regime {
    Aatu,
    Aar,
}

/// True at the end of some run, or of every run.
#[derive(Clone, Copy, PartialEq, Eq, Debug)]
pub enum Kind {
    Possible,
    Necessary,
}

/// A side of the question `larger >= smaller`; and how one thing compares with another.
#[derive(Clone, Copy, PartialEq, Eq, Debug)]
pub enum Side {
    Larger,
    Smaller,
}
