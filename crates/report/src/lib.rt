// What is told of an answer, a refusal and a failed requirement, as lines of text.
#![tactic(auto)]

mod answers;
mod inputs;
mod refusals;
mod runs;
mod telling;
mod whole;

pub use answers::write_answer;
pub use inputs::answer_input;
pub use refusals::{refusal_line, write_failure, write_refusal};
pub use telling::{answer_report, report_of};
pub use whole::report;
