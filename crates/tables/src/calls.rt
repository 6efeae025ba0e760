// Assigning and taking roles. Each call changes one row or none.
ghost use Rattle.tables.specs.Calls.{AllAssigned, AllUnassigned, Assigned, Unassigned};
ghost use Rattle.rbac.specs.Roles.{roles_of};

use crate::tables::Tables;
use rbac::{Role, RoleSet, User};

/// Every row is in use, and none of them is the user's.
#[derive(Clone, Copy, PartialEq, Eq, Debug)]
pub struct RowsFull;

impl Tables {
    /// Assigns these roles to a user, who keeps the others. Refused, with nothing changed, where the user has no row and none is free.
    pub fn assign_all(&mut self, user: User, roles: RoleSet) -> Result<(), RowsFull>
        ensures { AllAssigned self.old user.number (roles_of roles) result self.new }
    {
        let place = self
            .rows
            .place_of(user)
            .or_else(|| self.rows.free_place())
            .ok_or(RowsFull)?;
        self.rows.lend(place, |row| row.give(user, roles));
        Ok(())
    }

    /// Takes these roles from a user; those that the user does not have are passed over.
    pub fn unassign_all(&mut self, user: User, roles: RoleSet)
        ensures { AllUnassigned self.old user.number (roles_of roles) self.new }
    {
        if let Some(place) = self.rows.place_of(user) {
            self.rows.lend(place, |row| row.take(roles));
        }
    }

    /// Assigns one role to a user, as `assign_all` does.
    pub fn assign(&mut self, user: User, role: Role) -> Result<(), RowsFull>
        ensures { Assigned self.old user.number role.number result self.new }
    {
        self.assign_all(user, RoleSet::one(role))
    }

    /// Takes one role from a user; nothing is changed where the user does not have it.
    pub fn unassign(&mut self, user: User, role: Role)
        ensures { Unassigned self.old user.number role.number self.new }
    {
        self.unassign_all(user, RoleSet::one(role));
    }
}
