// Who is a member of what and has which permission, and a board saved.
use crate::boards::*;
use crate::calls::*;
use board::Board;
use rbac::{Permission, Role, User};
use std::test::Fail;

fn is_member(board: &Board, user: u16, role: u32) -> Option<bool> {
    Some(board.is_member(User::from(user), Role::new(role)?))
}

fn has_permission(board: &Board, user: u16, permission: u32) -> Option<bool> {
    Some(board.has_permission(User::from(user), Permission::new(permission)?))
}

#[test]
fn members(rt: HostRuntime) -> Result<(), Fail> {
    let board = made(OFFICE).ok_or(1)?;
    let cases = [
        (1, 1, true),
        (1, 7, true),
        (1, 6, false),
        (2, 3, true),
        (2, 7, true),
        (2, 1, false),
        (3, 5, true),
        (3, 7, false),
        (4, 1, false),
        (65535, 0, false),
    ];
    for (user, role, yes) in cases {
        assert_eq!(rt; is_member(&board, user, role), Some(yes), "u{user} r{role}");
    }
    Ok(())
}

#[test]
fn permissions(rt: HostRuntime) -> Result<(), Fail> {
    let board = made(OFFICE).ok_or(1)?;
    let cases = [
        (1, 0, true),
        (2, 0, true),
        (3, 0, false),
        (1, 1, true),
        (2, 1, false),
        (3, 2, true),
        (1, 2, false),
        (1, 31, false),
        (4, 0, false),
    ];
    for (user, permission, yes) in cases {
        assert_eq!(rt;
            has_permission(&board, user, permission),
            Some(yes),
            "u{user} p{permission}"
        );
    }
    Ok(())
}

const GIVEN: &[u8] =
    b"RBD 1\nregime aatu\nalways {u1,u3} >= (r4)\ntrust u9 u7\nassign r2 : ((r1)) : r6 r5\nua u5 r2 r1\nua u1 r3\nrh r1 r3 r2\npa p3 r1\n";

const SAVED: &[u8] =
    b"RBD 1\nregime aatu\nua u1 r3\nua u5 r1 r2\npa p3 r1\nrh r1 r2 r3\ntrust u7 u9\nassign r2 : r1 : r5 r6\nalways {u1}|{u3} >= r4\n";

// The text has 118 bytes. A place of one byte less stays as it was, and so does the byte behind the text.
#[test]
fn saving(rt: HostRuntime) -> Result<(), Fail> {
    let board = made(GIVEN).ok_or(1)?;
    let mut short = [7u8; 117];
    assert_eq!(rt; told(board.save(&mut short).err()), (7, 0));
    assert!(rt; short == [7u8; 117]);
    let mut place = [7u8; 119];
    assert_eq!(rt; board.save(&mut place).ok(), Some(118));
    assert!(rt; place.starts_with(SAVED));
    assert_eq!(rt; place[118], 7);
    assert!(rt; same(&made(SAVED).ok_or(2)?, &board));
    Ok(())
}
