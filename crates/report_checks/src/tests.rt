use deciding::RunStep;
use meaning::{LIST_PLACES, WORK_WORDS};
use report::{answer_input, refusal_line, report};
use std::process::Abort;
use std::test::Fail;

const B1: &[u8] =
    b"RBD 1\nregime aatu\nua u1 r1\nua u2 r2\nua u3 r3\nassign r2 : r1 : r5\nassign r3 : r5 : r4\n";

const B2: &[u8] =
    b"RBD 1\nregime aar\nua u1 r1\nua u2 r2\nua u3 r3\nassign r2 : r1 : r5\nassign r3 : r5 : r4\nrevoke r2 : r1 r5\nrevoke r3 : r4\n";

const EMPTY: &[u8] = b"RBD 1\nregime aatu\n";

// Room for all that is told here.
const PLACE: usize = 256;

fn told(rt: &impl Abort, text: &[u8], question: &[u8], lines: &[u8]) -> Result<(), Fail> {
    let mut place = [0u8; PLACE];
    let mut list = [RunStep::blank(); LIST_PLACES];
    let mut work = [0u64; WORK_WORDS];
    let n = report(text, question, &mut list, &mut work, &mut place)
        .ok()
        .ok_or(1)?;
    assert!(rt; place.get(..n) == Some(lines));
    Ok(())
}

fn refused_with(rt: &impl Abort, text: &[u8], question: &[u8], line: &[u8]) -> Result<(), Fail> {
    let mut place = [0u8; PLACE];
    let mut list = [RunStep::blank(); LIST_PLACES];
    let mut work = [0u64; WORK_WORDS];
    let refusal = report(text, question, &mut list, &mut work, &mut place)
        .err()
        .ok_or(1)?;
    let n = refusal_line(&mut place, refusal).ok_or(1)?;
    assert!(rt; place.get(..n) == Some(line));
    Ok(())
}

#[test]
fn answers_are_told(rt: HostRuntime) -> Result<(), Fail> {
    told(
        &rt,
        B1,
        b"possible r4 >= {u1}",
        b"possible yes 2\nu2 adds u1 r5 rule 1\nu3 adds u1 r4 rule 2\n",
    )?;
    told(&rt, B1, b"necessary {u1} >= r4", b"necessary yes\n")?;
    told(
        &rt,
        B2,
        b"necessary r1 >= {u1}",
        b"necessary no 1\nu2 removes u1 r1 rule 1\n",
    )?;
    told(&rt, EMPTY, b"possible r1 >= {u1}", b"possible no\n")?;
    told(&rt, EMPTY, b"possible {} >= {}", b"possible yes 0\n")
}

#[test]
fn refusals_are_told(rt: HostRuntime) -> Result<(), Fail> {
    refused_with(&rt, EMPTY, b"possible r1 >= {u1} ", b"refused 3 line 1\n")?;
    refused_with(&rt, EMPTY, b"possible r1 >= r2", b"refused 6 line 1\n")?;
    refused_with(&rt, b"RBD 2\n", b"possible {} >= {}", b"refused 2 line 1\n")?;
    refused_with(&rt, b"RBD 1\n", b"possible {} >= {}", b"refused 3 line 2\n")?;
    refused_with(
        &rt,
        b"RBD 1\nregime aatu\nua u1 r1\nua u1 r1\n",
        b"possible {} >= {}",
        b"refused 10 line 4\n",
    )
}

#[test]
fn a_short_place_stays_as_it_was(rt: HostRuntime) -> Result<(), Fail> {
    let mut place = [7u8; 14];
    let mut list = [RunStep::blank(); LIST_PLACES];
    let mut work = [0u64; WORK_WORDS];
    let question = b"possible {} >= {}";
    let refusal = report(EMPTY, question, &mut list, &mut work, &mut place)
        .err()
        .ok_or(1)?;
    assert!(rt; refusal.cause.number() == 7);
    assert!(rt; refusal.line == 0);
    assert!(rt; place == [7u8; 14]);
    assert!(rt; refusal_line(&mut place, refusal).is_none());
    assert!(rt; place == [7u8; 14]);
    Ok(())
}

// An input, and all that is written of it.
const INPUTS: [(&[u8], &[u8]); 15] = [
    (
        b"possible r4 >= {u1}\nRBD 1\nregime aatu\nua u1 r1\nua u2 r2\nua u3 r3\nassign r2 : r1 : r5\nassign r3 : r5 : r4\n",
        b"possible yes 2\nu2 adds u1 r5 rule 1\nu3 adds u1 r4 rule 2\n",
    ),
    (
        b"necessary r1 >= {u1}\nRBD 1\nregime aar\nua u1 r1\nua u2 r2\nrevoke r2 : r1\n",
        b"necessary no 1\nu2 removes u1 r1 rule 1\n",
    ),
    (
        b"necessary {u1} >= r4\nRBD 1\nregime aatu\nua u1 r4\n",
        b"necessary yes\n",
    ),
    (
        b"possible {} >= {}\nRBD 1\nregime aatu\n",
        b"possible yes 0\n",
    ),
    (b"", b"refused 2 line 1\n"),
    (b"possible r4 >= {u1}", b"refused 2 line 1\n"),
    (b"\nRBD 1\nregime aatu\n", b"refused 3 line 1\n"),
    (
        b"possible {} >= {}\r\nRBD 1\nregime aatu\n",
        b"refused 3 line 1\n",
    ),
    (
        b"possible r64 >= r1\nRBD 1\nregime aatu\n",
        b"refused 4 line 1\n",
    ),
    (
        b"possible r1 >= r2\nRBD 1\nregime aatu\n",
        b"refused 6 line 1\n",
    ),
    // What refuses the text is told before what refuses the question.
    (b"possible r1 >= r2\nRBD 2\n", b"refused 2 line 1\n"),
    (
        b"possible {} >= {}\nRBD 1\nregime aatu",
        b"refused 3 line 2\n",
    ),
    (
        b"possible {} >= {}\nRBD 1\nregime aatu\nrevoke r1 : r2\n",
        b"refused 8 line 3\n",
    ),
    (
        b"possible {} >= {}\nRBD 1\nregime aatu\nua u1 r1\nua u1 r1\n",
        b"refused 10 line 4\n",
    ),
    (
        b"possible {} >= {}\nRBD 1\nregime aatu\nua u2 r1\nnever r1 >= {u2}\n",
        b"refused 18 line 0\n",
    ),
];

#[test]
fn inputs_are_answered(rt: HostRuntime) -> Result<(), Fail> {
    let mut list = [RunStep::blank(); LIST_PLACES];
    let mut work = [0u64; WORK_WORDS];
    for (input, output) in INPUTS {
        let mut place = [0u8; PLACE];
        let n = answer_input(input, &mut list, &mut work, &mut place);
        assert!(rt; place.get(..n) == Some(output));
    }
    Ok(())
}

// A report that is too long is refused with 7, and where that line is too long as well nothing is written.
#[test]
fn an_input_gets_a_short_place(rt: HostRuntime) -> Result<(), Fail> {
    let input = b"necessary r1 >= {u1}\nRBD 1\nregime aar\nua u1 r1\nua u2 r2\nrevoke r2 : r1\n";
    let mut list = [RunStep::blank(); LIST_PLACES];
    let mut work = [0u64; WORK_WORDS];
    let mut place = [b'!'; 18];
    let size = answer_input(input, &mut list, &mut work, &mut place);
    assert!(rt; size == 17);
    assert!(rt; place == *b"refused 7 line 0\n!");
    let mut short = [b'!'; 16];
    let size = answer_input(input, &mut list, &mut work, &mut short);
    assert!(rt; size == 0);
    // A list that is too short is refused with 7 as well, and the place has room for that line alone.
    let size = answer_input(input, &mut list[1..], &mut work, &mut place);
    assert!(rt; size == 17);
    assert!(rt; short == [b'!'; 16]);
    Ok(())
}
