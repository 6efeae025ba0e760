// A plan for a question.
ghost use Rattle.std.specs.Prelude.{◌≡◌, ℕ, ◌+◌, ◌<◌, ◌≤◌, true, false, [], ◌∷◌, length, Decides};
ghost use Rattle.meaning.specs.Measures.{users, rows, tracked_users};
ghost use Rattle.meaning.specs.Lists.{listed};
ghost use Rattle.meaning.specs.Rows.{Holder};
ghost use Rattle.theory.specs.Bounds.{WithinMeasures};
ghost use Rattle.rbac.specs.Roles.{roles_of};
ghost use Rattle.bounded.specs.Entries.{entries};
ghost use Rattle.tables.specs.View.{rows_of, state_of, policy_of};
ghost use Rattle.tables.specs.Rows.{is_of};
ghost use Rattle.questions.specs.Inquired.{inquired};
ghost use Rattle.questions.specs.Naming.{users_in};
ghost use Rattle.deciding.specs.Slots.{slots_of};
ghost use Rattle.planning.specs.Plans.{Planned};
ghost use Rattle.planning.specs.MasksTold.{MasksTell};
ghost use Rattle.planning.specs.Slotted.{PresentSlots, has_slot, HoldersSlotted, MoreSlots};

use crate::masks::masks_of;
use crate::slots::{give_slot, has_slot, is_trusted};
use bounded::Bounded;
use deciding::{Plan, Slot};
use meaning::{TRACKED_USERS, TRUSTED_USERS};
use questions::Inquiry;
use rbac::{RoleSet, User};
use soundness::Valid;
use tables::{Row, Tables};
use trees::Node;

// Among so many users one has no slot and is not trusted.
const CANDIDATES: u16 = (TRACKED_USERS + TRUSTED_USERS) as u16;

// Gives a slot to the user of a row in use.
fn slot_for_row(tables: &Tables, row: Row, slots: &mut Bounded<Slot, TRACKED_USERS>)
    requires room { length (entries slots.old) < tracked_users }
    requires row { row.user.number < users → is_of row.user.number row ≡ true → roles_of row.roles ≡ state_of tables.now row.user.number }
    ensures { MoreSlots (policy_of tables.now) (state_of tables.now) (entries slots.old) (λ v. is_of v row) 1 (entries slots.new) }
{
    if row.holder().is_some() {
        give_slot(tables, slots, row.user, row.roles);
    }
}

// Slots for all users with a row; these are the rows of the tables.
fn slots_for_rows(tables: &Tables, list: &[Row]) -> Bounded<Slot, TRACKED_USERS>
    requires same { list.now ≡ rows_of tables.now }
    requires all { length list.now ≡ rows }
    ensures present { PresentSlots (policy_of tables.now) (state_of tables.now) (entries result) }
    ensures rowed { (v : ℕ) → Decides (has_slot (entries result) v) (Holder (state_of tables.now) v) }
    ensures few { length (entries result) ≤ rows }
{
    let mut slots = Bounded::new(Slot {
        user: User::from(0),
        roles: RoleSet::empty(),
        acts: false,
    });
    for row in list {
        slot_for_row(tables, *row, &mut slots);
    }
    slots
}

// Gives a slot to the user that a node names.
fn slot_for_node(tables: &Tables, node: Node, slots: &mut Bounded<Slot, TRACKED_USERS>)
    requires room { length (entries slots.old) + length (users_in (node ∷ [])) < tracked_users }
    requires held { HoldersSlotted (state_of tables.now) (entries slots.old) }
    ensures { MoreSlots (policy_of tables.now) (state_of tables.now) (entries slots.old) (listed (users_in (node ∷ []))) (length (users_in (node ∷ []))) (entries slots.new) }
{
    if let Node::User(number) = node {
        give_slot(tables, slots, User::from(number), RoleSet::empty());
    }
}

// Gives a slot to every user that the nodes name.
fn slots_for_named(tables: &Tables, nodes: &[Node], slots: &mut Bounded<Slot, TRACKED_USERS>)
    requires room { length (entries slots.old) + length (users_in nodes.now) < tracked_users }
    requires held { HoldersSlotted (state_of tables.now) (entries slots.old) }
    ensures { MoreSlots (policy_of tables.now) (state_of tables.now) (entries slots.old) (listed (users_in nodes.now)) (length (users_in nodes.now)) (entries slots.new) }
{
    for node in nodes {
        slot_for_node(tables, *node, slots);
    }
}

// A user who is not trusted and has no slot: the least.
fn hire(tables: &Tables, slots: &[Slot]) -> User
    requires { length slots.now < tracked_users }
    ensures new { has_slot slots.now result.number ≡ false }
    ensures free { (policy_of tables.now).trusted result.number ≡ false }
    ensures inside { result.number < users }
{
    // The numbers themselves are tried; none of them is a place in a list.
    for number in 0..CANDIDATES {
        let user = User::from(number);
        if !(has_slot(slots, user) | is_trusted(tables, user)) {
            return user;
        }
    }
    unreachable()
}

/// The users with a row, those whom the question names, and one hire, each in a slot, with the masks that the question is worked out with.
pub fn plan_of(board: &Valid, asked: &Inquiry) -> Plan
    ensures planned { Planned (policy_of board.now.tables) (state_of board.now.tables) (inquired asked.now) (slots_of result) }
    ensures masks { MasksTell (policy_of board.now.tables) result.masks.seniors result.masks.givers }
    ensures measured { WithinMeasures (policy_of board.now.tables) (state_of board.now.tables) }
{
    let tables = &board.tables;
    let mut slots = slots_for_rows(tables, tables.rows.entries());
    slots_for_named(tables, asked.larger.nodes.entries(), &mut slots);
    slots_for_named(tables, asked.smaller.nodes.entries(), &mut slots);
    let user = hire(tables, slots.entries());
    let _ = slots.push(Slot {
        user,
        roles: RoleSet::empty(),
        acts: true,
    });
    Plan {
        masks: masks_of(tables),
        slots,
    }
}
