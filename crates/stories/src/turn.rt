// A call of a story and its answer.
use crate::call::{Call, Reply};
use book::Refusal;

/// A call, how many places of the step list and words of the work table it is lent, and the place for its answer.
#[derive(Clone, Copy)]
pub struct Turn<'a> {
    pub call: Call<'a>,
    pub list: usize,
    pub work: usize,
    pub answer: Result<Reply, Refusal>,
}
