// A question's kind, and the verdict on it.
use meaning::Kind;
use verdicts::Verdict;

#[derive(Clone, Copy)]
pub struct Answer {
    pub kind: Kind,
    pub verdict: Verdict,
}
