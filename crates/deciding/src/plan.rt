// The users that a question looks at.
use crate::masks::Masks;
use bounded::Bounded;
use meaning::TRACKED_USERS;
use rbac::{RoleSet, User};

/// One user, with the roles assigned now, and whether the user may act.
#[derive(Clone, Copy, PartialEq, Eq, Debug)]
pub struct Slot {
    pub user: User,
    pub roles: RoleSet,
    pub acts: bool,
}

/// One slot for each user, counted from 0, and the masks that the question is worked out with.
#[derive(Clone, Copy)]
pub struct Plan {
    pub masks: Masks,
    pub slots: Bounded<Slot, TRACKED_USERS>,
}
