// Each function takes one promise to its edges.
use hierarchy::Edge;
use meaning::{ROWS, Regime};
use rbac::{Permission, Role, RoleSet, User};
use soundness::{
    Valid, admins_are_assigned, admins_are_no_targets, assignable_is_revocable, conditions_whole,
    held, is_sound, regime_kept,
};
use std::test::Fail;
use tables::{AssignEntry, Bounded, Full, Needs, RevokeEntry, Row, Rows, RowsFull, Tables};
use trees::{Node, no_nodes};

#[test]
fn a_new_board_is_sound_and_empty(rt: HostRuntime) -> Result<(), Fail> {
    let tables = Tables::new();
    let user = User::new(0).ok_or(1)?;
    let role = Role::new(0).ok_or(1)?;
    assert!(rt; is_sound(&tables));
    assert!(rt; !tables.is_member(user, role));
    assert!(rt; held(&tables).is_empty());
    assert!(rt; Valid::new(tables).is_some());
    Ok(())
}

#[test]
fn the_hundred_and_first_user_has_no_row(rt: HostRuntime) -> Result<(), Fail> {
    let mut tables = Tables::new();
    let role = Role::new(5).ok_or(1)?;
    let more = Role::new(6).ok_or(1)?;
    for k in 0..100u32 {
        let user = User::new(k * 655).ok_or(1)?;
        assert!(rt; tables.assign(user, role).is_ok());
    }
    let late = User::new(65_535).ok_or(1)?;
    let early = User::new(655).ok_or(1)?;
    assert_eq!(rt; tables.assign(late, role), Err(RowsFull));
    assert!(rt; !tables.is_member(late, role));
    assert!(rt; tables.assign(early, more).is_ok());
    assert_eq!(rt; tables.assigned(early).word(), 0x60);
    assert!(rt; is_sound(&tables));
    Ok(())
}

#[test]
fn a_row_is_free_when_its_last_role_goes(rt: HostRuntime) -> Result<(), Fail> {
    let mut tables = Tables::new();
    let role = Role::new(5).ok_or(1)?;
    let more = Role::new(6).ok_or(1)?;
    for k in 0..100u32 {
        let user = User::new(k).ok_or(1)?;
        assert!(rt; tables.assign(user, role).is_ok());
    }
    let middle = User::new(50).ok_or(1)?;
    let late = User::new(65_535).ok_or(1)?;
    assert!(rt; tables.assign(middle, more).is_ok());
    tables.unassign(middle, role);
    assert_eq!(rt; tables.assign(late, role), Err(RowsFull));
    tables.unassign(middle, more);
    assert!(rt; tables.assign(late, role).is_ok());
    assert!(rt; tables.is_member(late, role));
    assert!(rt; !tables.is_member(middle, role));
    assert_eq!(rt; tables.assign(middle, role), Err(RowsFull));
    Ok(())
}

#[test]
fn two_rows_of_one_user_are_no_board(rt: HostRuntime) -> Result<(), Fail> {
    let mut tables = Tables::new();
    let user = User::new(65_535).ok_or(1)?;
    let role = Role::new(63).ok_or(1)?;
    let free = Row {
        user,
        roles: RoleSet::empty(),
    };
    let mut list = [free; ROWS];
    list[3].roles = RoleSet::one(role);
    tables.rows = Rows::new(list).ok_or(1)?;
    assert!(rt; is_sound(&tables));
    list[99] = list[3];
    assert!(rt; Rows::new(list).is_none());
    list[99].roles = RoleSet::empty();
    assert!(rt; Rows::new(list).is_some());
    Ok(())
}

#[test]
fn members_by_seniority_have_the_permission(rt: HostRuntime) -> Result<(), Fail> {
    let mut tables = Tables::new();
    let user = User::new(7).ok_or(1)?;
    let other = User::new(8).ok_or(1)?;
    let senior = Role::new(1).ok_or(1)?;
    let middle = Role::new(2).ok_or(1)?;
    let junior = Role::new(3).ok_or(1)?;
    let given = Permission::new(31).ok_or(1)?;
    let kept = Permission::new(0).ok_or(1)?;
    tables.hierarchy.insert(Edge {
        senior,
        junior: middle,
    });
    tables.hierarchy.insert(Edge {
        senior: middle,
        junior,
    });
    tables.gives[31] = RoleSet::one(junior);
    assert!(rt; tables.assign(user, senior).is_ok());
    assert!(rt; tables.assign(other, middle).is_ok());
    assert!(rt; tables.is_member(user, junior));
    assert!(rt; !tables.is_member(other, senior));
    assert!(rt; tables.has_permission(user, given));
    assert!(rt; tables.has_permission(other, given));
    assert!(rt; !tables.has_permission(user, kept));
    tables.unassign(user, senior);
    assert!(rt; !tables.has_permission(user, given));
    Ok(())
}

// Role 1 assigns and revokes role 2, and user 1 has role 1.
fn revocable_board() -> Option<Tables> {
    let user = User::new(1)?;
    let admin = Role::new(1)?;
    let target = Role::new(2)?;
    let mut tables = Tables::new();
    tables.regime = Regime::Aar;
    tables.assign(user, admin).ok()?;
    let assigning = AssignEntry {
        admin,
        needs: Needs::Everybody,
        targets: RoleSet::one(target),
    };
    tables.assigns.push(assigning).ok()?;
    let revoking = RevokeEntry {
        admin,
        targets: RoleSet::one(target),
    };
    tables.revokes.push(revoking).ok()?;
    Some(tables)
}

// The board whose one assign rule asks for the first of these nodes, while the others stay behind them.
fn with_condition(mut tables: Tables, nodes: &[Node], len: usize) -> Option<Tables> {
    let mut needs = no_nodes();
    for node in nodes {
        needs.push(*node).ok()?;
    }
    for i in (len..nodes.len()).rev() {
        needs.remove(i)?;
    }
    let mut rule = tables.assigns.remove(0)?;
    rule.needs = Needs::Roles(needs);
    tables.assigns.push(rule).ok()?;
    Some(tables)
}

#[test]
fn an_administering_role_is_no_target(rt: HostRuntime) -> Result<(), Fail> {
    let mut tables = revocable_board().ok_or(1)?;
    let admin = Role::new(1).ok_or(1)?;
    assert!(rt; regime_kept(&tables));
    let mut rule = tables.revokes.remove(0).ok_or(1)?;
    rule.targets = rule.targets.insert(admin);
    assert!(rt; tables.revokes.push(rule).is_ok());
    assert!(rt; !admins_are_no_targets(&tables));
    assert!(rt; admins_are_assigned(&tables) & assignable_is_revocable(&tables));
    assert!(rt; !regime_kept(&tables));
    Ok(())
}

#[test]
fn an_administering_role_is_assigned(rt: HostRuntime) -> Result<(), Fail> {
    let mut tables = revocable_board().ok_or(1)?;
    let user = User::new(1).ok_or(1)?;
    let admin = Role::new(1).ok_or(1)?;
    tables.unassign(user, admin);
    assert!(rt; !admins_are_assigned(&tables));
    assert!(rt; admins_are_no_targets(&tables) & assignable_is_revocable(&tables));
    assert!(rt; !is_sound(&tables));
    Ok(())
}

#[test]
fn what_is_assigned_can_be_revoked(rt: HostRuntime) -> Result<(), Fail> {
    let mut tables = revocable_board().ok_or(1)?;
    assert!(rt; tables.revokes.remove(0).is_some());
    assert!(rt; !assignable_is_revocable(&tables));
    assert!(rt; admins_are_no_targets(&tables) & admins_are_assigned(&tables));
    assert!(rt; !regime_kept(&tables));
    tables.regime = Regime::Aatu;
    assert!(rt; regime_kept(&tables));
    Ok(())
}

#[test]
fn each_regime_excludes_what_it_does_not_know(rt: HostRuntime) -> Result<(), Fail> {
    let user = User::new(1).ok_or(1)?;
    let mut tables = revocable_board().ok_or(1)?;
    assert!(rt; tables.trusted.push(user).is_ok());
    assert!(rt; !regime_kept(&tables));
    tables.regime = Regime::Aatu;
    assert!(rt; !regime_kept(&tables));
    assert!(rt; tables.revokes.remove(0).is_some());
    assert!(rt; regime_kept(&tables));
    Ok(())
}

#[test]
fn a_condition_is_a_set_of_roles(rt: HostRuntime) -> Result<(), Fail> {
    let tables = revocable_board().ok_or(1)?;
    let mut at = [Node::Role(0), Node::Role(63), Node::And, Node::User(1)];
    let whole = with_condition(tables, &at, 3).ok_or(1)?;
    assert!(rt; conditions_whole(&whole));
    let short = with_condition(tables, &at, 2).ok_or(1)?;
    assert!(rt; !conditions_whole(&short));
    at[1] = Node::Role(64);
    let past = with_condition(tables, &at, 3).ok_or(1)?;
    assert!(rt; !conditions_whole(&past));
    at[1] = Node::Permission(1);
    let permission = with_condition(tables, &at, 3).ok_or(1)?;
    assert!(rt; !is_sound(&permission));
    Ok(())
}

#[test]
fn later_entries_move_down(rt: HostRuntime) {
    let mut list: Bounded<u32, 4> = Bounded::new(0);
    for k in 10..14u32 {
        assert!(rt; list.push(k).is_ok());
    }
    assert!(rt; list.push(14) == Err(Full));
    assert!(rt; list.remove(1) == Some(11));
    assert_eq!(rt; list.entries().len(), 3);
    assert!(rt; list.get(0) == Some(10));
    assert!(rt; list.get(1) == Some(12));
    assert!(rt; list.get(2) == Some(13));
    assert!(rt; list.get(3) == None);
    assert!(rt; list.remove(3) == None);
    assert!(rt; list.remove(2).is_some() && list.remove(0).is_some() && list.remove(0).is_some());
    assert!(rt; list.remove(0) == None);
    assert!(rt; list.push(15).is_ok());
}

#[test]
fn an_entry_is_replaced_in_its_place(rt: HostRuntime) {
    let mut list: Bounded<u32, 4> = Bounded::of([10, 11, 12, 13], 3);
    assert_eq!(rt; list.entries().len(), 3);
    assert!(rt; list.replace(1, 21) == Some(11));
    assert!(rt; list.get(0) == Some(10));
    assert!(rt; list.get(1) == Some(21));
    assert!(rt; list.get(2) == Some(12));
    assert!(rt; list.replace(3, 23) == None);
    assert!(rt; list.get(3) == None);
    let past: Bounded<u32, 4> = Bounded::of([10, 11, 12, 13], 9);
    assert_eq!(rt; past.entries().len(), 4);
    assert!(rt; past.get(3) == Some(13));
    let none: Bounded<u32, 4> = Bounded::of([10, 11, 12, 13], 0);
    assert!(rt; none.get(0) == None);
}
