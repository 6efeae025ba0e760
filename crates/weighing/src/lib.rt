// Whole drafts weighed: what is lent, the properties of the regime, and every standing requirement.
#![tactic(auto)]

mod failure;
mod requirement;
mod whole;

pub use whole::weigh;
