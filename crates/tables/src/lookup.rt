// Of which roles a user is a member, and which permissions that gives.
ghost use Rattle.std.specs.Prelude.{◌≡◌, Decides};
ghost use Rattle.meaning.specs.Membership.{Member};
ghost use Rattle.meaning.specs.Sets.{HasPermission};
ghost use Rattle.rbac.specs.Roles.{roles_of};
ghost use Rattle.tables.specs.View.{state_of, policy_of};

use crate::tables::Tables;
use rbac::{Permission, Role, RoleSet, User};

impl Tables {
    /// The roles assigned to a user.
    pub fn assigned(&self, user: User) -> RoleSet
        ensures { roles_of result ≡ state_of self.now user.number }
    {
        match self.rows.row_of(user) {
            Some(row) => row.roles,
            None => RoleSet::empty(),
        }
    }

    pub fn is_member(&self, user: User, role: Role) -> bool
        ensures { Decides result (Member (policy_of self.now).edge (state_of self.now user.number) role.number) }
    {
        self.hierarchy.members(self.assigned(user)).contains(role)
    }

    pub fn has_permission(&self, user: User, permission: Permission) -> bool
        ensures { Decides result (HasPermission (policy_of self.now) (state_of self.now user.number) permission.number) }
    {
        let given = self.gives[permission.number() as usize];
        self.hierarchy.members(self.assigned(user)).meets(given)
    }
}
