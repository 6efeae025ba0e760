// A requirement that would fail: the first is named, and the list has a run that shows it. Such a run is made by the delegates' calls.
use crate::boards::*;
use board::Board;
use book::{Cause, Refusal};
use deciding::RunStep;
use meaning::{LIST_PLACES, WORK_WORDS};
use std::process::Abort;
use std::test::Fail;

// The requirement that a refusal names, whether its run adds, and how many steps it has.
fn failed(refused: Option<Refusal>) -> Option<(usize, bool, usize)> {
    match refused?.cause {
        Cause::RequirementFails {
            requirement,
            steps,
            adds,
        } => Some((requirement, adds, steps)),
        _ => None,
    }
}

// Whether the delegates' calls make all these steps in turn.
fn granted(board: &mut Board, run: &[RunStep], adds: bool) -> bool {
    for step in run {
        let answer = if adds {
            board.add(step.actor, step.user, step.role)
        } else {
            board.remove(step.actor, step.user, step.role)
        };
        if answer.is_err() {
            return false;
        }
    }
    true
}

// Whether the question, asked as necessary, is false at present.
fn is_false(board: &Board, question: &[u8]) -> Option<bool> {
    let mut list = [RunStep::blank(); LIST_PLACES];
    let mut work = [0; WORK_WORDS];
    let answer = board.ask(question, &mut list, &mut work).ok()?;
    Some(answer.verdict.run.is_some_and(|run| run.steps == 0))
}

// From this board the run leads to its first state where the question is false.
fn shows(
    rt: &impl Abort,
    board: &Board,
    run: &[RunStep],
    adds: bool,
    question: &[u8],
) -> Result<(), Fail> {
    let mut board = *board;
    for step in run {
        assert_eq!(rt; is_false(&board, question), Some(false));
        assert!(rt; granted(&mut board, &[*step], adds));
    }
    assert_eq!(rt; is_false(&board, question), Some(true));
    Ok(())
}

#[test]
fn the_worked_one(rt: HostRuntime) -> Result<(), Fail> {
    let mut board = after(B1, &[b"+always {u1} >= r4"]).ok_or(1)?;
    let mut list = [RunStep::blank(); LIST_PLACES];
    let mut work = [1; WORK_WORDS];
    let refused = board
        .change(b"+assign r2 : true : r1", &mut list, &mut work)
        .err();
    let (requirement, adds, steps) = failed(refused).ok_or(1)?;
    assert_eq!(rt; (requirement, adds), (1, true));
    let run = list.get(..steps).ok_or(2)?;
    let unguarded = after(B1, &[b"+assign r2 : true : r1"]).ok_or(3)?;
    shows(&rt, &unguarded, run, adds, b"necessary {u1} >= r4")?;
    assert!(rt;
        list.iter()
            .skip(steps)
            .all(|step| *step == RunStep::blank())
    );
    assert!(rt; work == [0; WORK_WORDS]);
    Ok(())
}

#[test]
fn the_first_of_two(rt: HostRuntime) -> Result<(), Fail> {
    let three: [&[u8]; 3] = [
        b"+always r1 >= {u1}",
        b"+never r4 >= {u3}",
        b"+always {u1} >= r4",
    ];
    let mut board = after(B1, &three).ok_or(1)?;
    let mut list = [RunStep::blank(); LIST_PLACES];
    let mut work = [1; WORK_WORDS];
    let refused = board
        .change(b"+assign r2 : true : r1", &mut list, &mut work)
        .err();
    let (requirement, adds, steps) = failed(refused).ok_or(1)?;
    assert_eq!(rt; (requirement, adds), (2, true));
    let mut unguarded = after(B1, &[b"+assign r2 : true : r1"]).ok_or(3)?;
    assert!(rt; granted(&mut unguarded, list.get(..steps).ok_or(2)?, adds));
    assert_eq!(rt; is_false(&unguarded, b"necessary r4 >= {u3}"), Some(false));
    Ok(())
}

#[test]
fn by_removing(rt: HostRuntime) -> Result<(), Fail> {
    let board = made(B2).ok_or(1)?;
    let mut list = [RunStep::blank(); LIST_PLACES];
    let mut work = [1; WORK_WORDS];
    let refused = { board }
        .change(b"+always r1 >= {u1}", &mut list, &mut work)
        .err();
    assert_eq!(rt; failed(refused), Some((1, false, 1)));
    shows(&rt, &board, &list[..1], false, b"necessary r1 >= {u1}")
}

#[test]
fn in_an_opening(rt: HostRuntime) -> Result<(), Fail> {
    let text =
        b"RBD 1\nregime aatu\nua u1 r1\nalways r1 >= {u1}\nnever r1 >= {u1}\nnever {} >= {}\n";
    let mut list = [RunStep::blank(); LIST_PLACES];
    let mut work = [1; WORK_WORDS];
    let refused = Board::new().open(text, &mut list, &mut work).err();
    let (requirement, _, steps) = failed(refused).ok_or(1)?;
    assert_eq!(rt; (requirement, steps), (2, 0));
    Ok(())
}

// Only the users 1, 2 and 3 have a row.
#[test]
fn a_hire_does_it(rt: HostRuntime) -> Result<(), Fail> {
    let board = after(B1, &[b"+assign r2 : true : r1"]).ok_or(1)?;
    let question = b"necessary {u1,u2,u3} >= r4";
    let mut list = [RunStep::blank(); LIST_PLACES];
    let mut work = [1; WORK_WORDS];
    let answer = board.ask(question, &mut list, &mut work).ok().ok_or(2)?;
    let run = answer.verdict.run.ok_or(3)?;
    shows(
        &rt,
        &board,
        list.get(..run.steps).ok_or(4)?,
        run.adds,
        question,
    )
}
