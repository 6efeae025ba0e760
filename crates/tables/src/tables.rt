// All of a board, copied as one value: a change is made to a copy, weighed there, and committed by one assignment.
use crate::entries::{AssignEntry, RequirementEntry, RevokeEntry};
use crate::rows::Rows;
use bounded::Bounded;
use hierarchy::Hierarchy;
use meaning::{ASSIGN_RULES, PERMISSIONS, REQUIREMENTS, REVOKE_RULES, Regime, TRUSTED_USERS};
use rbac::{RoleSet, User};

#[derive(Clone, Copy)]
pub struct Tables {
    pub regime: Regime,
    pub rows: Rows,
    pub hierarchy: Hierarchy,
    pub gives: [RoleSet; PERMISSIONS],
    pub trusted: Bounded<User, TRUSTED_USERS>,
    pub assigns: Bounded<AssignEntry, ASSIGN_RULES>,
    pub revokes: Bounded<RevokeEntry, REVOKE_RULES>,
    pub requirements: Bounded<RequirementEntry, REQUIREMENTS>,
}
