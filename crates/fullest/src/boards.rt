// The fullest boards: 100 users with a row, 32 assign rules, and a question that names 31 other users.
use meaning::{ASSIGN_RULES, Kind, ROWS};
use questions::Inquiry;
use rbac::{Role, RoleSet, User};
use soundness::Valid;
use tables::{AssignEntry, Needs, Tables};
use trees::{Node, no_nodes};

// The users that the question names come after all of those with a row.
const FIRST_NAMED: u16 = 1000;

const NAMED: u16 = 31;

// How the rules follow one another. Each gives the next role of a chain to those who have the one before: so that one pass takes all steps, or so that each pass takes those of one rule; or each gives all roles to those who have the first.
#[derive(Clone, Copy, PartialEq, Eq, Debug)]
pub(crate) enum Order {
    Forward,
    Backward,
    Wide,
}

// The rule of that number: the first of the chain gives its role to everybody.
fn rule(order: Order, k: usize) -> AssignEntry {
    let at = match order {
        Order::Forward => k,
        Order::Backward => (ASSIGN_RULES - 1).saturating_sub(k),
        Order::Wide => 0,
    };
    let admin = Role::modulo(at);
    let next = Role::modulo(at.saturating_add(1));
    AssignEntry {
        admin,
        needs: if at == 0 { Needs::Everybody } else { of(admin) },
        targets: match order {
            Order::Wide => RoleSet::from_word(u64::MAX),
            _ => RoleSet::one(next),
        },
    }
}

// Members of the role.
fn of(role: Role) -> Needs {
    let mut nodes = no_nodes();
    let _ = nodes.push(Node::Role(role.number()));
    Needs::Roles(nodes)
}

// The board.
pub(crate) fn board(order: Order) -> Option<Valid> {
    let mut tables = Tables::new();
    for user in 0..ROWS as u16 {
        tables.assign(User::from(user), Role::modulo(0)).ok()?;
    }
    for k in 0..ASSIGN_RULES {
        tables.assigns.push(rule(order, k)).ok()?;
    }
    Valid::new(tables)
}

// Whether the users that it names can all come to have the last role of the chain.
pub(crate) fn question() -> Option<Inquiry> {
    let mut larger = no_nodes();
    larger.push(Node::Role(ASSIGN_RULES as u8)).ok()?;
    let mut smaller = no_nodes();
    smaller.push(Node::User(FIRST_NAMED)).ok()?;
    for k in 1..NAMED {
        smaller.push(Node::User(FIRST_NAMED + k)).ok()?;
        smaller.push(Node::Or).ok()?;
    }
    Inquiry::new(Kind::Possible, larger, smaller)
}
