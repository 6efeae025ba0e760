// Users get slots, each of them one.
ghost use Rattle.std.specs.Prelude.{◌≡◌, ◌<◌, false, length, ◌==◌};
ghost use Rattle.std.specs.List.{list_any};
ghost use Rattle.meaning.specs.Measures.{users, tracked_users};
ghost use Rattle.rbac.specs.Roles.{roles_of};
ghost use Rattle.bounded.specs.Entries.{entries};
ghost use Rattle.tables.specs.View.{state_of, policy_of};
ghost use Rattle.planning.specs.Slotted.{has_slot, MoreSlots};

use bounded::Bounded;
use deciding::Slot;
use meaning::TRACKED_USERS;
use rbac::{RoleSet, User};
use tables::Tables;

pub(crate) fn has_slot(slots: &[Slot], user: User) -> bool
    ensures { result ≡ has_slot slots.now user.number }
{
    slots.iter().any(|slot| slot.user == user)
}

// Whether a user of the list has the number, which is in range by its type.
fn is_named(list: &[User], number: u16) -> bool
    ensures is { result ≡ list_any (λ (x : _). x.number == number) list.now }
    ensures inside { number < users }
{
    list.iter().any(|user| user.number() == number)
}

/// Whether the user is trusted, and so does nothing.
pub fn is_trusted(tables: &Tables, user: User) -> bool
    ensures is { result ≡ (policy_of tables.now).trusted user.number }
    ensures inside { user.number < users }
{
    is_named(tables.trusted.entries(), user.number())
}

// Gives the user a slot, unless the user has one. Here and in the plan the tables are lent beside the slots: a struct of both, lent for change, would owe at each call that the tables stay as they are.
pub(crate) fn give_slot(
    tables: &Tables,
    slots: &mut Bounded<Slot, TRACKED_USERS>,
    user: User,
    roles: RoleSet,
)
    requires room { length (entries slots.old) < tracked_users }
    requires row { has_slot (entries slots.old) user.number ≡ false → roles_of roles ≡ state_of tables.now user.number }
    ensures { MoreSlots (policy_of tables.now) (state_of tables.now) (entries slots.old) (λ v. user.number == v) 1 (entries slots.new) }
{
    if has_slot(slots.entries(), user) {
        return;
    }
    let acts = !is_trusted(tables, user);
    let _ = slots.push(Slot { user, roles, acts });
}
