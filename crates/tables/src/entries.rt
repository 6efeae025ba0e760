// Plain entries of a board's tables. Trees are kept as plain nodes; a set is made of them, by a check, where it is worked out.
use rbac::{Role, RoleSet, User};
use trees::Nodes;

/// A user and the roles assigned to that user. The row is free while it holds no role. It is no Option: a row in use without a role would be a second kind of free row.
#[derive(Clone, Copy, PartialEq, Eq, Debug)]
pub struct Row {
    pub user: User,
    pub roles: RoleSet,
}

/// What an assign rule asks of the user who is to get a role: nothing, or a set of roles. Not an Option, as where a text says it and None is a condition without a tree: a board names what it asks, and None would not say whether everybody or nobody meets it.
#[derive(Clone, Copy)]
pub enum Needs {
    Everybody,
    Roles(Nodes),
}

#[derive(Clone, Copy)]
pub struct AssignEntry {
    pub admin: Role,
    pub needs: Needs,
    pub targets: RoleSet,
}

#[derive(Clone, Copy, PartialEq, Eq, Debug)]
pub struct RevokeEntry {
    pub admin: Role,
    pub targets: RoleSet,
}

/// Whether a requirement's question shall be true in every state, or in none.
#[derive(Clone, Copy, PartialEq, Eq, Debug)]
pub enum Demand {
    Always,
    Never,
}

#[derive(Clone, Copy)]
pub struct RequirementEntry {
    pub demand: Demand,
    pub larger: Nodes,
    pub smaller: Nodes,
}
