use bounded::Bounded;
use meaning::{TRUSTED_USERS, USERS};
use rbac::{Permission, Role, RoleSet, User};
use trees::Nodes;

/// What one line of a board names, by its kind; its trusted users and its trees lie beside it.
#[derive(Clone, Copy, PartialEq, Eq, Debug)]
pub enum Change {
    Ua {
        user: User,
        roles: RoleSet,
    },
    Pa {
        permission: Permission,
        roles: RoleSet,
    },
    Rh {
        senior: Role,
        juniors: RoleSet,
    },
    Trust,
    Assign {
        admin: Role,
        targets: RoleSet,
    },
    Revoke {
        admin: Role,
        targets: RoleSet,
    },
    Always,
    Never,
}

// One bit for each user.
pub(crate) const USER_WORDS: usize = USERS / 64;

/// What is lent beside a change: how many users a `trust` line names, the first 32 of them and, one bit for each, all of
/// them; whether the line's list names an entry twice; the tree of a condition, which is none where it is `true`; and the
/// trees of two sides.
#[derive(Clone, Copy)]
pub struct Extra {
    pub trusted: Bounded<User, TRUSTED_USERS>,
    pub named: [u64; USER_WORDS],
    pub many: usize,
    pub twice: bool,
    pub condition: Option<Nodes>,
    pub left: Nodes,
    pub right: Nodes,
}
