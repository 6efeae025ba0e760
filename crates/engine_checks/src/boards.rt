// Boards, made line by line, and questions as they are written.
use deciding::RunStep;
use hierarchy::Edge;
use lines::Extra;
use meaning::{LIST_PLACES, Regime, WORK_WORDS};
use questions::Inquiry;
use rbac::{Role, RoleSet, User};
use soundness::Valid;
use tables::{AssignEntry, Needs, RevokeEntry, Tables};
use texts::alone::read_question;
use trees::{Node, no_nodes};
use verdicts::{Verdict, decide};

pub(crate) fn ua(tables: &mut Tables, user: u16, role: u32) -> Option<()> {
    tables.assign(User::from(user), Role::new(role)?).ok()
}

pub(crate) fn rh(tables: &mut Tables, senior: u32, junior: u32) -> Option<()> {
    tables.hierarchy.insert(Edge {
        senior: Role::new(senior)?,
        junior: Role::new(junior)?,
    });
    Some(())
}

pub(crate) fn trusting(tables: Tables, user: u16) -> Tables {
    let mut more = tables;
    let _ = more.trusted.push(User::from(user));
    more
}

// A condition of these nodes.
fn needs(nodes: &[Node]) -> Needs {
    let mut list = no_nodes();
    for node in nodes {
        let _ = list.push(*node);
    }
    Needs::Roles(list)
}

// Members of the role.
pub(crate) fn of(role: u8) -> Needs {
    needs(&[Node::Role(role)])
}

// Members of both roles.
fn of_both(one: u8, other: u8) -> Needs {
    needs(&[Node::Role(one), Node::Role(other), Node::And])
}

pub(crate) fn one(role: u32) -> Option<RoleSet> {
    Some(RoleSet::one(Role::new(role)?))
}

pub(crate) fn two(role: u32, other: u32) -> Option<RoleSet> {
    Some(RoleSet::one(Role::new(role)?).insert(Role::new(other)?))
}

pub(crate) fn assign(
    tables: &mut Tables,
    admin: u32,
    needs: Needs,
    targets: RoleSet,
) -> Option<()> {
    let admin = Role::new(admin)?;
    let rule = AssignEntry {
        admin,
        needs,
        targets,
    };
    tables.assigns.push(rule).ok()
}

pub(crate) fn revoke(tables: &mut Tables, admin: u32, targets: RoleSet) -> Option<()> {
    let admin = Role::new(admin)?;
    tables.revokes.push(RevokeEntry { admin, targets }).ok()
}

// Users 1, 2 and 3 have the roles 1, 2 and 3; role 2 gives role 5 to members of role 1, role 3 gives role 4 to members of role 5.
pub(crate) fn b1() -> Option<Tables> {
    let mut tables = Tables::new();
    ua(&mut tables, 1, 1)?;
    ua(&mut tables, 2, 2)?;
    ua(&mut tables, 3, 3)?;
    assign(&mut tables, 2, of(1), one(5)?)?;
    assign(&mut tables, 3, of(5), one(4)?)?;
    Some(tables)
}

// The same under aar, with rules that revoke what those rules give, and role 1.
pub(crate) fn b2() -> Option<Tables> {
    let mut tables = b1()?;
    tables.regime = Regime::Aar;
    revoke(&mut tables, 2, two(1, 5)?)?;
    revoke(&mut tables, 3, one(4)?)?;
    Some(tables)
}

// An office: 1 engineers, 2 part time, 3 full time, 4 managers, 5 human resources, 6 project leads, 7 employees.
// User 1 is an engineer in part time, user 2 a manager, user 3 with human resources. Employees have permission 0, engineers permission 1.
pub(crate) fn office() -> Option<Tables> {
    let mut tables = Tables::new();
    ua(&mut tables, 1, 1)?;
    ua(&mut tables, 1, 2)?;
    ua(&mut tables, 2, 4)?;
    ua(&mut tables, 3, 5)?;
    rh(&mut tables, 1, 7)?;
    rh(&mut tables, 2, 7)?;
    rh(&mut tables, 3, 7)?;
    rh(&mut tables, 4, 3)?;
    rh(&mut tables, 6, 1)?;
    tables.gives[0] = one(7)?;
    tables.gives[1] = one(1)?;
    assign(&mut tables, 4, of_both(1, 3), one(6)?)?;
    assign(&mut tables, 5, Needs::Everybody, two(2, 3)?)?;
    Some(tables)
}

pub(crate) fn asked(text: &[u8]) -> Option<Inquiry> {
    let mut extra = Extra::new();
    let kind = read_question(text, &mut extra).ok()?;
    Inquiry::new(kind, extra.left, extra.right)
}

// The verdict, with its run in the list.
pub(crate) fn answer(tables: &Tables, text: &[u8], list: &mut [RunStep]) -> Option<Verdict> {
    let board = Valid::new(*tables)?;
    let asked = asked(text)?;
    let mut work = [1; WORK_WORDS];
    decide(&board, &asked, list, &mut work).ok()
}

// Yes or no, and by how many steps it is shown; none where it is not.
pub(crate) fn shown(tables: &Tables, text: &[u8]) -> Option<(bool, Option<usize>)> {
    let mut list = [RunStep::blank(); LIST_PLACES];
    let verdict = answer(tables, text, &mut list)?;
    Some((verdict.yes, verdict.run.map(|run| run.steps)))
}
