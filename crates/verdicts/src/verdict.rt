// What a question is answered with.

/// A run that shows the answer: whether its steps add or remove, and how many there are. Every run has both, so neither is a flag for the other; and `adds` is yes or no, as in the definitions (`as_changes adds`).
#[derive(Clone, Copy, PartialEq, Eq, Debug)]
pub struct Shown {
    pub adds: bool,
    pub steps: usize,
}

/// Yes or no; and the run that shows it, where one does.
#[derive(Clone, Copy, PartialEq, Eq, Debug)]
pub struct Verdict {
    pub yes: bool,
    pub run: Option<Shown>,
}
