// What a board means: who is a member of what, what delegates may do, what is asked and required, and the numbers of the subject.
#![tactic(auto)]

mod measures;
mod terms;

pub use measures::{
    ASSIGN_RULES, CONDITION_OPERANDS, HIRES, LIST_PLACES, PERMISSIONS, QUESTION_OPERANDS,
    REQUIREMENTS, REVOKE_RULES, ROLES, ROWS, Sizes, TRACKED_USERS, TRUSTED_USERS, USERS,
    WORK_WORDS, all_measures,
};
pub use terms::{Kind, Regime, Side};
