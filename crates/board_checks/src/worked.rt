// Worked boards, and how what is told of each question begins; in full where there is but one such run.
use crate::boards::*;
use crate::calls::*;
use board::Board;
use book::Refusal;
use deciding::RunStep;
use meaning::{LIST_PLACES, WORK_WORDS};
use report::{refusal_line, report, report_of};
use std::process::Abort;
use std::test::Fail;
use stories::{Call, Reply, Story, Turn, add, tell};

type Told = (&'static [u8], &'static [u8]);

fn tells(rt: &impl Abort, board: &Board, cases: &[Told]) -> Result<(), Fail> {
    for (i, (question, beginning)) in cases.iter().enumerate() {
        let mut place = [0u8; PLACE];
        let mut list = [RunStep::blank(); LIST_PLACES];
        let mut work = [0u64; WORK_WORDS];
        let size = report_of(board, question, &mut list, &mut work, &mut place)
            .ok()
            .ok_or(1)?;
        let told = place.get(..size).ok_or(2)?;
        assert!(rt; told.starts_with(beginning), "at {i}");
    }
    Ok(())
}

const SHOWN: &[u8] = b"possible yes 2\nu2 adds u1 r5 rule 1\nu3 adds u1 r4 rule 2\n";

#[test]
fn roles_are_added(rt: HostRuntime) -> Result<(), Fail> {
    tells(
        &rt,
        &made(B1).ok_or(1)?,
        &[
            (b"possible r4 >= {u1}", SHOWN),
            (b"necessary {u1} >= r4", b"necessary yes\n"),
            (b"necessary r1 >= {u1}", b"necessary yes\n"),
            (b"possible {} >= {}", b"possible yes 0\n"),
            (b"necessary {} >= {}", b"necessary yes\n"),
        ],
    )?;
    let stopped: [Told; 1] = [(b"possible r4 >= {u1}", b"possible no\n")];
    tells(&rt, &after(B1, &[b"+trust u2"]).ok_or(1)?, &stopped)?;
    let unhindered: [Told; 1] = [(b"possible r4 >= {u1}", SHOWN)];
    tells(&rt, &after(B1, &[b"+trust u1"]).ok_or(1)?, &unhindered)?;
    let senior: [Told; 1] = [(b"possible r4 >= {u4}", b"possible yes ")];
    tells(
        &rt,
        &after(B1, &[b"+rh r6 r1", b"+ua u4 r6"]).ok_or(1)?,
        &senior,
    )
}

#[test]
fn roles_are_removed(rt: HostRuntime) -> Result<(), Fail> {
    tells(
        &rt,
        &made(B2).ok_or(1)?,
        &[
            (
                b"necessary r1 >= {u1}",
                b"necessary no 1\nu2 removes u1 r1 rule 1\n",
            ),
            (b"possible r4 >= {u1}", SHOWN),
            (b"possible {} >= {}", b"possible yes 0\n"),
            (b"necessary {} >= {}", b"necessary yes\n"),
        ],
    )
}

#[test]
fn an_office(rt: HostRuntime) -> Result<(), Fail> {
    let office: [Told; 2] = [
        (b"possible r6 >= {u1}", b"possible yes "),
        (b"necessary r3&p0 >= {u1}", b"necessary no 0\n"),
    ];
    tells(&rt, &made(OFFICE).ok_or(1)?, &office)?;
    let stopped: [Told; 1] = [(b"possible r6 >= {u1}", b"possible no\n")];
    tells(&rt, &after(OFFICE, &[b"+trust u3"]).ok_or(1)?, &stopped)?;
    let revoking = made(REVOKING).ok_or(1)?;
    let edits: [Told; 1] = [(b"necessary p1 >= {u1}", b"necessary no ")];
    tells(&rt, &revoking, &edits)?;
    asks(&rt, &revoking, ALL, &[(b"possible r6 >= p0", 6, 1)])
}

#[test]
fn delegates(rt: HostRuntime) -> Result<(), Fail> {
    let mut board = made(B1).ok_or(1)?;
    moves(&rt, &board, &[(ADD, 3, 1, 4, 12), (ADD, 2, 1, 5, 0)])?;
    assert!(rt; add(&mut board, 2, 1, 5).is_ok());
    moves(&rt, &board, &[(ADD, 2, 1, 5, 10), (ADD, 3, 1, 4, 0)])
}

// The report of a text, and the line of a refusal: of the text, the question and the place, in this order.
#[test]
fn reports(rt: HostRuntime) -> Result<(), Fail> {
    let mut place = [0u8; PLACE];
    let mut list = [RunStep::blank(); LIST_PLACES];
    let mut work = [0u64; WORK_WORDS];
    let question = b"possible r4 >= {u1}";
    let size = report(B1, question, &mut list, &mut work, &mut place).ok();
    assert_eq!(rt; size, Some(SHOWN.len()));
    assert!(rt; place.starts_with(SHOWN));
    let cases: [(&[u8], &[u8], &[u8]); 3] = [
        (b"RBD 1\n", b"possible r64 >= {}", b"refused 3 line 2\n"),
        (B1, b"possible r64 >= {}", b"refused 4 line 1\n"),
        (B1, b"possible r4 >= {u1}", b"refused 7 line 0\n"),
    ];
    for (text, question, line) in cases {
        let mut short = [7u8; 54];
        let refusal = report(text, question, &mut list, &mut work, &mut short)
            .err()
            .ok_or(1)?;
        assert!(rt; short == [7u8; 54]);
        let size = refusal_line(&mut short, refusal).ok_or(2)?;
        assert!(rt; short.get(..size) == Some(line));
    }
    Ok(())
}

// A run may add to a user who has no row, though no row is free.
#[test]
fn rows_limit_no_run(rt: HostRuntime) -> Result<(), Fail> {
    let mut board = full(ROWS).ok_or(1)?;
    assert_eq!(rt; change(&mut board, b"+assign r1 : true : r2", ALL), (0, 0));
    let hired: [Told; 2] = [
        (b"possible r2 >= {u100}", b"possible yes "),
        (b"necessary {u1} >= r2", b"necessary no "),
    ];
    tells(&rt, &board, &hired)
}

fn turn(call: Call<'static>, list: usize) -> Turn<'static> {
    Turn {
        call,
        list,
        work: WORK_WORDS,
        answer: Ok(Reply::Done),
    }
}

fn adding(actor: u32, user: u32, role: u32) -> Turn<'static> {
    turn(Call::Add { actor, user, role }, LIST_PLACES)
}

fn opening(text: &'static [u8], list: usize) -> Turn<'static> {
    turn(Call::Open(text), list)
}

// 0 where the call is granted, and else the number of its refusal.
fn number(answer: Result<Reply, Refusal>) -> u8 {
    match answer {
        Ok(_) => 0,
        Err(refusal) => refusal.cause.number(),
    }
}

// The calls that are refused leave the board of a story as it was, and each call is answered on the board that those before it left.
#[test]
fn a_story(rt: HostRuntime) -> Result<(), Fail> {
    let mut story = [
        opening(B1, LIST_PLACES),
        opening(B2, LIST_PLACES - 1),
        adding(2, 1, 5),
        adding(3, 1, 64),
        adding(3, 2, 4),
        opening(b"RBD 1\n", LIST_PLACES),
        adding(3, 1, 4),
        turn(Call::Ask(b"necessary r4 >= {u1}"), LIST_PLACES),
        turn(Call::Member { user: 1, role: 5 }, 0),
        turn(
            Call::Permission {
                user: 1,
                permission: 32,
            },
            0,
        ),
    ];
    let numbers = [0, 7, 0, 4, 12, 3, 0, 0, 0, 4];
    let mut list = [RunStep::blank(); LIST_PLACES];
    let mut work = [1; WORK_WORDS];
    let mut told = Story::new();
    tell(&mut told, &mut story, &mut list, &mut work);
    for (turn, expected) in story.iter().zip(numbers.iter()) {
        assert_eq!(rt; number(turn.answer), *expected);
    }
    match story[7].answer {
        Ok(Reply::Verdict(answer)) => assert!(rt; answer.verdict.yes),
        _ => return Err(Fail::from(3)),
    }
    match story[8].answer {
        Ok(Reply::Truth(is_so)) => assert!(rt; is_so),
        _ => return Err(Fail::from(4)),
    }
    assert!(rt; same(told.board(), &after(B1, &[b"+ua u1 r4 r5"]).ok_or(2)?));
    Ok(())
}
