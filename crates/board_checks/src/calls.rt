// Calls on boards, and what they are refused with.
use crate::boards::{B1, Long, PLACE, made, written};
use board::Board;
use book::Refusal;
use deciding::RunStep;
use meaning::{LIST_PLACES, WORK_WORDS};
use std::process::Abort;
use std::test::Fail;
use stories::{add, remove};

// A text, and the number and the line that it is refused with; 0 and 0 where it is not.
pub(crate) type Case = (&'static [u8], u8, usize);

// Whether it is an adding; actor, user and role; and the number that it is refused with.
pub(crate) type Move = (bool, u32, u32, u32, u8);

pub(crate) const ADD: bool = true;

pub(crate) const REMOVE: bool = false;

// How much of the step list and of the work table is lent.
#[derive(Clone, Copy)]
pub(crate) struct Lent {
    pub places: usize,
    pub words: usize,
}

pub(crate) const ALL: Lent = Lent {
    places: LIST_PLACES,
    words: WORK_WORDS,
};

pub(crate) const SHORT_LIST: Lent = Lent {
    places: LIST_PLACES - 1,
    words: WORK_WORDS,
};

pub(crate) const SHORT_TABLE: Lent = Lent {
    places: LIST_PLACES,
    words: WORK_WORDS - 1,
};

// The number and the line of a refusal, 0 and 0 where there is none.
pub(crate) fn told(refused: Option<Refusal>) -> (u8, usize) {
    match refused {
        Some(refusal) => (refusal.cause.number(), refusal.line),
        None => (0, 0),
    }
}

pub(crate) fn open(board: &mut Board, text: &[u8], lent: Lent) -> (u8, usize) {
    let mut list = [RunStep::blank(); LIST_PLACES];
    let mut work = [1; WORK_WORDS];
    let list = &mut list[..lent.places.min(LIST_PLACES)];
    let work = &mut work[..lent.words.min(WORK_WORDS)];
    told(board.open(text, list, work).err())
}

pub(crate) fn change(board: &mut Board, text: &[u8], lent: Lent) -> (u8, usize) {
    let mut list = [RunStep::blank(); LIST_PLACES];
    let mut work = [1; WORK_WORDS];
    let list = &mut list[..lent.places.min(LIST_PLACES)];
    let work = &mut work[..lent.words.min(WORK_WORDS)];
    told(board.change(text, list, work).err())
}

pub(crate) fn ask(board: &Board, text: &[u8], lent: Lent) -> (u8, usize) {
    let mut list = [RunStep::blank(); LIST_PLACES];
    let mut work = [1; WORK_WORDS];
    let list = &mut list[..lent.places.min(LIST_PLACES)];
    let work = &mut work[..lent.words.min(WORK_WORDS)];
    told(board.ask(text, list, work).err())
}

// Whether both boards are saved as the same text.
pub(crate) fn same(one: &Board, other: &Board) -> bool {
    let mut ones = [0u8; PLACE];
    let mut others = [0u8; PLACE];
    one.save(&mut ones).is_ok() && other.save(&mut others).is_ok() && ones == others
}

// Each text, with the case as its tail, is opened on the same board, or refused, and then the board stays as it was.
pub(crate) fn opens(rt: &impl Abort, long: Long, lent: Lent, cases: &[Case]) -> Result<(), Fail> {
    let board = made(B1).ok_or(1)?;
    for (i, (tail, number, line)) in cases.iter().enumerate() {
        let mut place = [0u8; PLACE];
        let text = written(&mut place, long, tail);
        let mut opened = board;
        assert_eq!(rt; open(&mut opened, text, lent), (*number, *line), "at {i}");
        assert!(rt; *number == 0 || same(&opened, &board), "at {i}");
    }
    Ok(())
}

// Each change is made on the same board, or refused, and then the board stays as it was.
pub(crate) fn changes(
    rt: &impl Abort,
    board: &Board,
    lent: Lent,
    cases: &[Case],
) -> Result<(), Fail> {
    for (i, (text, number, line)) in cases.iter().enumerate() {
        let mut changed = *board;
        let answer = change(&mut changed, text, lent);
        assert_eq!(rt; answer, (*number, *line), "at {i}");
        assert!(rt; same(&changed, board) == (*number != 0), "at {i}");
    }
    Ok(())
}

pub(crate) fn asks(rt: &impl Abort, board: &Board, lent: Lent, cases: &[Case]) -> Result<(), Fail> {
    for (i, (text, number, line)) in cases.iter().enumerate() {
        assert_eq!(rt; ask(board, text, lent), (*number, *line), "at {i}");
    }
    Ok(())
}

// Each pair is added or removed on the same board, or refused, and then the board stays as it was.
pub(crate) fn moves(rt: &impl Abort, board: &Board, cases: &[Move]) -> Result<(), Fail> {
    for (i, (adds, actor, user, role, number)) in cases.iter().enumerate() {
        let mut moved = *board;
        let answer = if *adds {
            add(&mut moved, *actor, *user, *role)
        } else {
            remove(&mut moved, *actor, *user, *role)
        };
        assert_eq!(rt; told(answer.err()), (*number, 0), "at {i}");
        assert!(rt; same(&moved, board) == (*number != 0), "at {i}");
    }
    Ok(())
}
