// Questions decided, and the runs that show the verdicts.
#![tactic(auto)]

mod case;
mod lowest;
mod replay;
mod revoker;
mod revoking;
mod runners;
mod settle;
mod verdict;
mod work;

pub use settle::decide;
pub use verdict::{Shown, Verdict};
pub use work::Work;
