use grammar::Size;
use rbac::RoleSet;

// Parentheses nest at most so deep.
pub(crate) const LEVELS: u8 = 8;

/// The roles that a list names: the set of them, and whether one is named twice.
#[derive(Clone, Copy)]
pub struct Names {
    pub roles: RoleSet,
    pub twice: bool,
}

/// What a line is about, a user, a permission or a role, and the roles that follow it.
#[derive(Clone, Copy)]
pub struct Row<N: Copy> {
    pub subject: N,
    pub names: Names,
}

/// How large the two sides of a question are.
#[derive(Clone, Copy)]
pub struct Sizes {
    pub left: Size,
    pub right: Size,
}

/// What stands behind `assign`, measured: the text from its condition on, the size of that, which is none for `true`, and
/// the targets, which are none where one is out of range.
#[derive(Clone, Copy)]
pub struct Assigned<'a> {
    pub admin: u32,
    pub condition: &'a [u8],
    pub size: Option<Size>,
    pub names: Option<Names>,
}
