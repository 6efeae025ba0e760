// Where a question is decided.

/// What removing all that can be revoked leaves, and what adding can make at most.
#[derive(Clone, Copy, PartialEq, Eq, Debug)]
pub enum Place {
    LeastState,
    GreatestState,
}
