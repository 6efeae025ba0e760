// The calls of a story, and what they are answered.
use board::Answer;

/// A call of a board, with texts and plain numbers as a server reads them (docs/CALLS.md).
#[derive(Clone, Copy)]
pub enum Call<'a> {
    Open(&'a [u8]),
    Change(&'a [u8]),
    Ask(&'a [u8]),
    Add { actor: u32, user: u32, role: u32 },
    Remove { actor: u32, user: u32, role: u32 },
    Member { user: u32, role: u32 },
    Permission { user: u32, permission: u32 },
}

/// What a granted call is answered: that it was done, whether something is so, or the verdict on a question.
#[derive(Clone, Copy)]
pub enum Reply {
    Done,
    Truth(bool),
    Verdict(Answer),
}
