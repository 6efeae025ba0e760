// The numbers of the subject, for code; `all_measures` ties each of them to the definitions.
ghost use Rattle.std.specs.Prelude.{◌≡◌};
ghost use Rattle.meaning.specs.Sizes.{measured};

pub const USERS: usize = 65_536;

pub const ROLES: usize = 64;

pub const PERMISSIONS: usize = 32;

pub const ROWS: usize = 100;

pub const ASSIGN_RULES: usize = 32;

pub const REVOKE_RULES: usize = 16;

pub const TRUSTED_USERS: usize = 32;

pub const REQUIREMENTS: usize = 16;

pub const CONDITION_OPERANDS: usize = 16;

pub const QUESTION_OPERANDS: usize = 32;

pub const HIRES: usize = 1;

pub const TRACKED_USERS: usize = ROWS + QUESTION_OPERANDS + HIRES;

pub const WORK_WORDS: usize = TRACKED_USERS;

pub const LIST_PLACES: usize = TRACKED_USERS * ROLES;

/// Every measure under its name.
#[derive(Clone, Copy)]
pub struct Sizes {
    pub users: usize,
    pub roles: usize,
    pub permissions: usize,
    pub rows: usize,
    pub assigns: usize,
    pub revokes: usize,
    pub trusted: usize,
    pub requirements: usize,
    pub condition: usize,
    pub question: usize,
    pub hires: usize,
    pub tracked: usize,
    pub words: usize,
    pub places: usize,
}

pub fn all_measures() -> Sizes
    ensures { result ≡ measured }
{
    Sizes {
        users: USERS,
        roles: ROLES,
        permissions: PERMISSIONS,
        rows: ROWS,
        assigns: ASSIGN_RULES,
        revokes: REVOKE_RULES,
        trusted: TRUSTED_USERS,
        requirements: REQUIREMENTS,
        condition: CONDITION_OPERANDS,
        question: QUESTION_OPERANDS,
        hires: HIRES,
        tracked: TRACKED_USERS,
        words: WORK_WORDS,
        places: LIST_PLACES,
    }
}
