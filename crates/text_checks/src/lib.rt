// Texts at the edges of the format, each with the refusal that it gets.
#![tactic(auto)]

use grammar::Reader;
use grammar::scan::scan;
use lines::Extra;
use lines::lists::{entry, roles};
use texts::Fault;
use texts::alone::{read_change, read_question};
use texts::board::{begin, next};
use trees::read::side;

const LINES: usize = 65536;

// The number of a refusal, and 0 where there is none.
fn number(refused: Option<Fault>) -> u8 {
    match refused {
        Some(fault) => fault.number(),
        None => 0,
    }
}

pub(crate) fn question(text: &[u8]) -> u8 {
    let mut extra = Extra::new();
    number(read_question(text, &mut extra).err())
}

pub(crate) fn change(text: &[u8]) -> u8 {
    let mut extra = Extra::new();
    number(read_change(text, &mut extra).err())
}

fn read_lines(text: &[u8], extra: &mut Extra) -> Result<(), Fault> {
    let mut r = Reader::new(text, 1);
    begin(&mut r)?;
    for _ in 0..LINES {
        if next(&mut r, extra)?.is_none() {
            break;
        }
    }
    Ok(())
}

// The first fault of a board text as its number and its line; 0 and 0 for none.
pub(crate) fn board(text: &[u8]) -> (u8, usize) {
    let mut extra = Extra::new();
    match read_lines(text, &mut extra) {
        Ok(()) => (0, 0),
        Err(fault) => (fault.number(), fault.line()),
    }
}

// How many bytes a reader has left that was asked for a number, for the size of a set, for a set of at most 8 levels, for an
// entry of a list of roles, or for a whole list.
pub(crate) fn left_by_number(text: &[u8]) -> usize {
    let mut r = Reader::new(text, 1);
    let _ = r.number();
    r.rest().len()
}

pub(crate) fn left_by_scan(text: &[u8]) -> usize {
    let mut r = Reader::new(text, 1);
    let _ = scan(&mut r);
    r.rest().len()
}

pub(crate) fn left_by_side(text: &[u8]) -> usize {
    let mut r = Reader::new(text, 1);
    let _ = side(&mut r, 8);
    r.rest().len()
}

pub(crate) fn left_by_entry(text: &[u8]) -> usize {
    let mut r = Reader::new(text, 1);
    let _ = entry(&mut r, b'r');
    r.rest().len()
}

pub(crate) fn left_by_roles(text: &[u8]) -> usize {
    let mut r = Reader::new(text, 1);
    let _ = roles(&mut r);
    r.rest().len()
}

// How many users the first line behind the regime trusts, and whether one is named twice.
pub(crate) fn trusted(text: &[u8]) -> (usize, bool) {
    let mut r = Reader::new(text, 1);
    let mut extra = Extra::new();
    if begin(&mut r).is_err() {
        return (0, false);
    }
    match next(&mut r, &mut extra) {
        Ok(Some(_)) => (extra.many, extra.twice),
        _ => (0, false),
    }
}

// Puts the bytes into the text from the place on, as far as there is room.
pub(crate) fn put(text: &mut [u8], place: usize, part: &[u8]) {
    for (to, from) in text.iter_mut().skip(place).zip(part) {
        *to = *from;
    }
}

// Fills a part of the text with one byte.
pub(crate) fn fill(text: &mut [u8], from: usize, to: usize, byte: u8) {
    for b in text.iter_mut().take(to).skip(from) {
        *b = byte;
    }
}

// A `trust` line of 9,000 users, the last of them named twice where `again` is set.
pub(crate) fn many_users(text: &mut [u8], again: bool) {
    put(text, 0, b"RBD 1\nregime aatu\ntrust");
    let mut at: usize = 23;
    for k in 0..9000u32 {
        let n = if again && k == 8999 { 0 } else { k };
        let entry = [
            b' ',
            b'u',
            b'1',
            digit(n / 1000),
            digit(n / 100),
            digit(n / 10),
            digit(n),
        ];
        put(text, at, &entry);
        at = at.saturating_add(entry.len());
    }
    put(text, at, b"\n");
}

// The last digit of a number.
fn digit(n: u32) -> u8 {
    b'0' + (n % 10) as u8
}

#[cfg(test)]
mod tests {
    use crate::{
        board, change, fill, left_by_entry, left_by_number, left_by_roles, left_by_scan,
        left_by_side, many_users, put, question, trusted,
    };

    #[test]
    fn questions(rt: HostRuntime) {
        assert_eq!(rt; question(b"possible r4 >= {u1}"), 0);
        assert_eq!(rt; question(b"necessary {u1,u2,u3} >= (r1|r2)&p31"), 0);
        assert_eq!(rt; question(b"possible r4 >= r1"), 6);
        assert_eq!(rt; question(b"possible r64 >= r1"), 4);
        assert_eq!(rt; question(b"possible p32 >= {}"), 4);
        assert_eq!(rt; question(b"possible {u65535} >= r63"), 0);
        assert_eq!(rt; question(b"possible {u65536} >= r63"), 4);
        assert_eq!(rt; question(b"possible r99999 >= r1 "), 3);
        assert_eq!(rt; question(b"possible r064 >= {}"), 3);
        assert_eq!(rt; question(b"possible r100000 >= {}"), 3);
        assert_eq!(rt; question(b"possible ((((((((r1)))))))) >= {}"), 0);
        assert_eq!(rt; question(b"possible (((((((((r1))))))))) >= {}"), 5);
        assert_eq!(rt; question(b"possible ((((((({u1,u2}))))))) >= {}"), 0);
        assert_eq!(rt; question(b"possible (((((((({u1,u2})))))))) >= {}"), 5);
        assert_eq!(rt; question(b"possible (((((((((r77))))))))) >= {}"), 4);
        assert_eq!(rt; question(b"possible (((((((((r77))))))) >= {}"), 3);
    }

    #[test]
    fn more_questions(rt: HostRuntime) {
        assert_eq!(rt; question(b"possible {,} >= {}"), 3);
        assert_eq!(rt; question(b"possible {u1,} >= {}"), 3);
        assert_eq!(rt; question(b"possible r1| >= {}"), 3);
        assert_eq!(rt; question(b"possible true >= {}"), 3);
        assert_eq!(rt; question(b"possible  r1 >= {}"), 3);
        assert_eq!(rt; question(b"possible r1 >= {}\n"), 3);
        assert_eq!(rt; question(b"possible r1 >= {}\r"), 3);
        assert_eq!(rt; question(b"possible r1 >= {\0}"), 3);
        assert_eq!(rt; question(b"possible r1 >= \xff"), 3);
        assert_eq!(rt; question(b""), 3);
        assert_eq!(rt; question(b"always r1 >= {}"), 3);
        assert_eq!(rt;
            question(
                b"possible r1|r1|r1|r1|r1|r1|r1|r1|r1|r1|r1|r1|r1|r1|r1|r1|r1|r1|r1|r1|r1|r1|r1|r1|r1|r1|r1|r1|r1|r1|r1 >= {}",
            ),
            0
        );
        assert_eq!(rt;
            question(
                b"possible r1|r1|r1|r1|r1|r1|r1|r1|r1|r1|r1|r1|r1|r1|r1|r1|r1|r1|r1|r1|r1|r1|r1|r1|r1|r1|r1|r1|r1|r1|r1|r1 >= {}",
            ),
            5
        );
        assert_eq!(rt; question(&[40u8; 1024]), 3);
        assert_eq!(rt; question(&[40u8; 1025]), 1);
    }

    #[test]
    fn changes(rt: HostRuntime) {
        assert_eq!(rt; change(b"+ua u5 r1 r2"), 0);
        assert_eq!(rt; change(b"-trust u9"), 0);
        assert_eq!(rt; change(b"ua u5 r1"), 3);
        assert_eq!(rt; change(b"+ ua u5 r1"), 3);
        assert_eq!(rt; change(b"+ua u5"), 3);
        assert_eq!(rt; change(b"+ua u5  r1"), 3);
        assert_eq!(rt; change(b"+ua u5 r1 "), 3);
        assert_eq!(rt; change(b"+ua u05 r1"), 3);
        assert_eq!(rt; change(b"+ua u65536 r1"), 4);
        assert_eq!(rt; change(b"+pa p31 r63"), 0);
        assert_eq!(rt; change(b"+pa p32 r63"), 4);
        assert_eq!(rt; change(b"+rh r1 r64"), 4);
        assert_eq!(rt; change(b"+possible r1 >= {}"), 3);
        assert_eq!(rt; change(b"+RBD 1"), 3);
        assert_eq!(rt; change(b"+regime aar"), 3);
    }

    #[test]
    fn rules(rt: HostRuntime) {
        assert_eq!(rt; change(b"+assign r2 : (r1|r3)&r4 : r5 r6"), 0);
        assert_eq!(rt; change(b"+assign r2 : true : r5"), 0);
        assert_eq!(rt; change(b"+assign r2 : p1 : r5"), 3);
        assert_eq!(rt; change(b"+assign r2 : {} : r5"), 3);
        assert_eq!(rt; change(b"+assign r2 : true|r1 : r5"), 3);
        assert_eq!(rt; change(b"+assign r2 : r1 :"), 3);
        assert_eq!(rt; change(b"+assign r2 : r64 : r5"), 4);
        assert_eq!(rt;
            change(b"+assign r2 : r1|r1|r1|r1|r1|r1|r1|r1|r1|r1|r1|r1|r1|r1|r1|r1 : r5"),
            0
        );
        assert_eq!(rt;
            change(b"+assign r2 : r1|r1|r1|r1|r1|r1|r1|r1|r1|r1|r1|r1|r1|r1|r1|r1|r1 : r5"),
            5
        );
        assert_eq!(rt; change(b"+revoke r2 : r5"), 0);
        assert_eq!(rt; change(b"+revoke r2 r5"), 3);
        assert_eq!(rt; change(b"+always {u1} >= r4"), 0);
        assert_eq!(rt; change(b"+never r1 >= r4"), 6);
        assert_eq!(rt; change(b"+never r1 >= true"), 3);
    }

    #[test]
    fn boards(rt: HostRuntime) {
        assert_eq!(rt; board(b"RBD 1\nregime aatu\n"), (0, 0));
        assert_eq!(rt; board(b"RBD 1\nregime aar\nua u1 r1\n"), (0, 0));
        assert_eq!(rt; board(b""), (2, 1));
        assert_eq!(rt; board(b"RBD 2\nregime aar\n"), (2, 1));
        assert_eq!(rt; board(b"RBD 1"), (2, 1));
        assert_eq!(rt; board(b"RBD 1\n"), (3, 2));
        assert_eq!(rt; board(b"RBD 1\nregime aat\n"), (3, 2));
        assert_eq!(rt; board(b"RBD 1\nregime aatu"), (3, 2));
        assert_eq!(rt; board(b"RBD 1\nregime aatu\nua u1 r1"), (3, 3));
        assert_eq!(rt; board(b"RBD 1\nregime aatu\nua u1 r1\n\n"), (3, 4));
        assert_eq!(rt; board(b"RBD 1\nregime aatu\nua u1 r64\nua\n"), (4, 3));
        assert_eq!(rt; board(b"RBD 1\nregime aatu\nua u1 r1\r\n"), (3, 3));
    }

    #[test]
    fn what_does_not_stand_there_is_not_taken(rt: HostRuntime) {
        assert_eq!(rt; left_by_number(b"r12 x"), 5);
        assert_eq!(rt; left_by_number(b"012 x"), 5);
        assert_eq!(rt; left_by_number(b"12 x"), 2);
        assert_eq!(rt; left_by_scan(b"(r1|r2&x"), 8);
        assert_eq!(rt; left_by_scan(b"(r1|r2) x"), 2);
        assert_eq!(rt; left_by_side(b"(r1|r64) x"), 10);
        assert_eq!(rt; left_by_side(b"(r1|r2) x"), 2);
        assert_eq!(rt; left_by_entry(b" r01"), 4);
        assert_eq!(rt; left_by_entry(b" r1 r2"), 3);
        assert_eq!(rt; left_by_roles(b" r1 r2 u3"), 9);
        assert_eq!(rt; left_by_roles(b" r1 r2"), 0);
    }

    #[test]
    fn depth(rt: HostRuntime) {
        let mut text = [40u8; 60036];
        put(&mut text, 0, b"RBD 1\nregime aatu\nalways ");
        assert_eq!(rt; board(&text), (3, 3));
        fill(&mut text, 30027, 60027, b')');
        put(&mut text, 30025, b"r7");
        put(&mut text, 60027, b" >= {}\n\n\n");
        assert_eq!(rt; board(&text), (5, 3));
        put(&mut text, 60033, b"x\n\n");
        assert_eq!(rt; board(&text), (3, 3));
    }

    // 60,000 parentheses that open and as many that close make a text that is too long, whatever it says.
    #[test]
    fn depth_past_the_length(rt: HostRuntime) {
        let mut text = [40u8; 120034];
        put(&mut text, 0, b"RBD 1\nregime aatu\nalways ");
        put(&mut text, 60025, b"r7");
        fill(&mut text, 60027, 120027, b')');
        put(&mut text, 120027, b" >= {}\n");
        assert_eq!(rt; board(&text), (1, 0));
    }

    #[test]
    fn lengths(rt: HostRuntime) {
        let mut text = [b'x'; 65537];
        put(&mut text, 0, b"RBD 1\nregime aatu\n");
        assert_eq!(rt; board(&text), (1, 0));
        assert_eq!(rt; board(&text[0..65536]), (3, 3));
    }

    #[test]
    fn trust(rt: HostRuntime) {
        let mut text = [b'\n'; 63024];
        many_users(&mut text, false);
        assert_eq!(rt; trusted(&text), (9000, false));
        many_users(&mut text, true);
        assert_eq!(rt; trusted(&text), (9000, true));
    }
}
