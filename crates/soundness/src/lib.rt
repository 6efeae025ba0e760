// What every board's tables keep: conditions are sets of roles, and the regime's properties hold. A type holds it.
#![tactic(auto)]

mod checks;
mod regime;
mod rules;
mod valid;

pub use checks::{conditions_whole, is_sound};
pub use regime::{
    admins, admins_are_assigned, admins_are_no_targets, assignable, assignable_is_revocable, held,
    regime_kept, revocable,
};
pub use rules::{AssignRule, AssignRules};
pub use valid::Valid;
