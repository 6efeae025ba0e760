// Each function asks its boards their questions; the run's length is given where every run that shows the verdict has it.
use crate::boards::*;
use deciding::RunStep;
use meaning::{LIST_PLACES, Regime};
use rbac::{Role, User};
use std::process::Abort;
use std::test::Fail;
use tables::{Needs, Tables};

const YES: bool = true;

const NO: bool = false;

fn says(rt: &impl Abort, tables: &Tables, text: &[u8], yes: bool) -> Result<(), Fail> {
    let (answer, _) = shown(tables, text).ok_or(1)?;
    assert!(rt; answer == yes);
    Ok(())
}

fn says_in(
    rt: &impl Abort,
    tables: &Tables,
    text: &[u8],
    yes: bool,
    steps: usize,
) -> Result<(), Fail> {
    let (answer, shown) = shown(tables, text).ok_or(1)?;
    assert!(rt; answer == yes);
    assert!(rt; shown == Some(steps));
    Ok(())
}

#[test]
fn the_worked_boards(rt: HostRuntime) -> Result<(), Fail> {
    let b1 = b1().ok_or(1)?;
    let mut open = b1;
    assign(&mut open, 2, Needs::Everybody, one(1).ok_or(1)?).ok_or(1)?;
    let mut senior = b1;
    rh(&mut senior, 6, 1).ok_or(1)?;
    ua(&mut senior, 4, 6).ok_or(1)?;
    says_in(&rt, &b1, b"possible r4 >= {u1}", YES, 2)?;
    says(&rt, &trusting(b1, 2), b"possible r4 >= {u1}", NO)?;
    says_in(&rt, &trusting(b1, 1), b"possible r4 >= {u1}", YES, 2)?;
    says(&rt, &b1, b"necessary {u1} >= r4", YES)?;
    says(&rt, &open, b"necessary {u1,u2,u3} >= r4", NO)?;
    says(&rt, &b1, b"necessary r1 >= {u1}", YES)?;
    says(&rt, &senior, b"possible r4 >= {u4}", YES)?;
    says_in(&rt, &b1, b"possible {} >= {}", YES, 0)?;
    says(&rt, &b1, b"necessary {} >= {}", YES)
}

#[test]
fn roles_are_removed(rt: HostRuntime) -> Result<(), Fail> {
    let b2 = b2().ok_or(1)?;
    says_in(&rt, &b2, b"necessary r1 >= {u1}", NO, 1)?;
    says_in(&rt, &b2, b"possible {u2} >= r1", YES, 1)?;
    says(&rt, &b2, b"possible {} >= r2", NO)?;
    says(&rt, &b2, b"necessary r2 >= {u2}", YES)?;
    says_in(&rt, &b2, b"possible r4 >= {u1}", YES, 2)?;
    says(&rt, &b2, b"necessary {u1} >= r4|r5", YES)?;
    says_in(&rt, &b2, b"necessary r4 >= {u1}", NO, 0)?;
    says_in(&rt, &b2, b"possible {} >= {}", YES, 0)?;
    says(&rt, &b2, b"necessary {} >= {}", YES)
}

#[test]
fn an_office(rt: HostRuntime) -> Result<(), Fail> {
    let office = office().ok_or(1)?;
    let mut revoking = office;
    revoking.regime = Regime::Aar;
    revoke(&mut revoking, 4, two(1, 6).ok_or(1)?).ok_or(1)?;
    revoke(&mut revoking, 5, two(2, 3).ok_or(1)?).ok_or(1)?;
    says(&rt, &trusting(office, 3), b"possible r6 >= {u1}", NO)?;
    says(&rt, &office, b"possible r6 >= {u1}", YES)?;
    says(&rt, &office, b"necessary p0&p1 >= {u1}", YES)?;
    says_in(&rt, &revoking, b"necessary p1 >= {u1}", NO, 1)?;
    says(&rt, &revoking, b"possible r6 >= {u1}", YES)?;
    assert!(rt; asked(b"possible r6 >= p0").is_none());
    Ok(())
}

// Nobody has role 3 at first; role 2 gives it to everybody, and role 3 gives role 4 to everybody.
fn chain() -> Option<Tables> {
    let mut tables = Tables::new();
    ua(&mut tables, 1, 1)?;
    ua(&mut tables, 2, 2)?;
    assign(&mut tables, 2, Needs::Everybody, one(3)?)?;
    assign(&mut tables, 3, Needs::Everybody, one(4)?)?;
    Some(tables)
}

// Users who have no row are tried, and users who become administrators later act.
#[test]
fn the_misreadings_are_wrong(rt: HostRuntime) -> Result<(), Fail> {
    let chain = chain().ok_or(1)?;
    says(&rt, &chain, b"possible r4 >= {u1}", YES)?;
    says(&rt, &chain, b"necessary {u1,u2} >= r3", NO)?;
    says(&rt, &chain, b"necessary {u1,u2} >= r4", NO)?;
    says(&rt, &chain, b"possible r4 >= {u65535}", YES)?;
    says(&rt, &trusting(chain, 2), b"possible r3|r4 >= {u1}", NO)?;
    says(&rt, &trusting(chain, 2), b"necessary {} >= r3|r4", YES)?;
    says(&rt, &trusting(chain, 1), b"possible r4 >= {u1}", YES)?;
    says(
        &rt,
        &trusting(chain, 65_535),
        b"possible r4 >= {u65535}",
        YES,
    )
}

// Whether the first steps of the list give roles to the user, and whether one of the first 32 users acts in them.
fn seen(list: &[RunStep], steps: usize, user: u16) -> (bool, bool) {
    let mut given = false;
    let mut acted = false;
    for step in list.iter().take(steps) {
        given |= step.user.number() == user;
        acted |= step.actor.number() < 32;
    }
    (given, acted)
}

// The chain, where user 99 has role 2 and the first 32 users are trusted.
fn trusted_chain() -> Option<Tables> {
    let mut tables = chain()?;
    tables.unassign(User::from(2), Role::new(2)?);
    ua(&mut tables, 99, 2)?;
    for k in 0..32u16 {
        tables.trusted.push(User::from(k)).ok()?;
    }
    Some(tables)
}

// The hire is none of the trusted users, whether they have a row, are named in the question, or neither.
#[test]
fn a_trusted_user_is_no_hire(rt: HostRuntime) -> Result<(), Fail> {
    let tables = trusted_chain().ok_or(1)?;
    let mut list = [RunStep::blank(); LIST_PLACES];
    let verdict = answer(&tables, b"necessary {u1,u5,u99} >= r4", &mut list).ok_or(1)?;
    assert!(rt; !verdict.yes);
    let run = verdict.run.ok_or(1)?;
    assert!(rt; run.adds);
    assert!(rt; seen(&list, run.steps, 32) == (true, false));
    Ok(())
}
