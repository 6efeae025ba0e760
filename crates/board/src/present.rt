// A new board, and who is a member of what and has which permission at present.
ghost use Rattle.std.specs.Prelude.{◌≡◌, Decides};
ghost use Rattle.meaning.specs.Membership.{Member};
ghost use Rattle.meaning.specs.Sets.{HasPermission};
ghost use Rattle.book.specs.Book.{new_book};
ghost use Rattle.board.specs.View.{says};

use crate::board::Board;
use drafts::Draft;
use meaning::Regime;
use rbac::{Permission, Role, User};

impl Board {
    /// A board under `aatu` that holds nothing else.
    pub fn new() -> Board
        ensures { says result ≡ new_book }
    {
        let draft = Draft::blank(Regime::Aatu);
        match draft.weighed() {
            Ok(valid) => Board { valid },
            Err(_) => unreachable(),
        }
    }

    /// Whether the user is a member of the role now: assigned it, or a role senior to it (docs/MEANING.md).
    pub fn is_member(&self, user: User, role: Role) -> bool
        ensures { Decides result (Member (says self.now).policy.edge ((says self.now).state user.number) role.number) }
    {
        self.valid.tables.is_member(user, role)
    }

    /// Whether the user has the permission now: is a member of a role that it is given to.
    pub fn has_permission(&self, user: User, permission: Permission) -> bool
        ensures { Decides result (HasPermission (says self.now).policy ((says self.now).state user.number) permission.number) }
    {
        self.valid.tables.has_permission(user, permission)
    }
}
