// Boards by their texts.
use crate::calls::{ALL, change, open};
use board::Board;
use pen::Writer;

// Room for each text that is written here.
pub(crate) const PLACE: usize = 4096;

// Users 1, 2 and 3 have the roles 1, 2 and 3; role 2 gives role 5 to members of role 1, role 3 gives role 4 to members of role 5.
pub(crate) const B1: &[u8] =
    b"RBD 1\nregime aatu\nua u1 r1\nua u2 r2\nua u3 r3\nassign r2 : r1 : r5\nassign r3 : r5 : r4\n";

// The same under aar, with rules that revoke what those rules give, and role 1.
pub(crate) const B2: &[u8] =
    b"RBD 1\nregime aar\nua u1 r1\nua u2 r2\nua u3 r3\nassign r2 : r1 : r5\nassign r3 : r5 : r4\nrevoke r2 : r1 r5\nrevoke r3 : r4\n";

// An office: 1 engineers, 2 part time, 3 full time, 4 managers, 5 human resources, 6 project leads, 7 employees.
// User 1 is an engineer in part time, user 2 a manager, user 3 with human resources. Permission 0 opens the office, 1 edits code, 2 shows employees.
pub(crate) const OFFICE: &[u8] =
    b"RBD 1\nregime aatu\nua u1 r1 r2\nua u2 r4\nua u3 r5\npa p0 r7\npa p1 r1\npa p2 r5\nrh r1 r7\nrh r2 r7\nrh r3 r7\nrh r4 r3\nrh r6 r1\nassign r4 : r1&r3 : r6\nassign r5 : true : r2 r3\n";

// The same office under aar, where managers revoke engineers and project leads, and human resources what they give.
pub(crate) const REVOKING: &[u8] =
    b"RBD 1\nregime aar\nua u1 r1 r2\nua u2 r4\nua u3 r5\npa p0 r7\npa p1 r1\npa p2 r5\nrh r1 r7\nrh r2 r7\nrh r3 r7\nrh r4 r3\nrh r6 r1\nassign r4 : r1&r3 : r6\nassign r5 : true : r2 r3\nrevoke r4 : r1 r6\nrevoke r5 : r2 r3\n";

// The board of a text.
pub(crate) fn made(text: &[u8]) -> Option<Board> {
    let mut board = Board::new();
    if open(&mut board, text, ALL) == (0, 0) {
        Some(board)
    } else {
        None
    }
}

// The board of a text after these changes.
pub(crate) fn after(text: &[u8], changes: &[&'static [u8]]) -> Option<Board> {
    let mut board = made(text)?;
    for text in changes {
        if change(&mut board, text, ALL) != (0, 0) {
            return None;
        }
    }
    Some(board)
}

// A text that says much the same many times: a head, then each number from 0 on between the same two parts, then a tail.
#[derive(Clone, Copy)]
pub(crate) struct Long {
    pub head: &'static [u8],
    pub before: &'static [u8],
    pub count: u64,
    pub after: &'static [u8],
}

// Nothing repeated: a whole text, or what begins a board's.
pub(crate) const NOTHING: Long = Long {
    head: b"",
    before: b"",
    count: 0,
    after: b"",
};

pub(crate) const AATU: Long = Long {
    head: b"RBD 1\nregime aatu\n",
    before: b"",
    count: 0,
    after: b"",
};

pub(crate) const AAR: Long = Long {
    head: b"RBD 1\nregime aar\n",
    before: b"",
    count: 0,
    after: b"",
};

// Boards with a full table: rows, assign rules, revoke rules, trusted users, requirements.
pub(crate) const ROWS: Long = Long {
    head: b"RBD 1\nregime aatu\n",
    before: b"ua u",
    count: 100,
    after: b" r1\n",
};

pub(crate) const ASSIGNS: Long = Long {
    head: b"RBD 1\nregime aatu\n",
    before: b"assign r1 : true : r",
    count: 32,
    after: b"\n",
};

pub(crate) const REVOKES: Long = Long {
    head: b"RBD 1\nregime aar\nua u1 r63\n",
    before: b"revoke r63 : r",
    count: 16,
    after: b"\n",
};

pub(crate) const TRUSTED: Long = Long {
    head: b"RBD 1\nregime aatu\n",
    before: b"trust u",
    count: 32,
    after: b"\n",
};

pub(crate) const REQUIREMENTS: Long = Long {
    head: b"RBD 1\nregime aatu\n",
    before: b"always {u",
    count: 16,
    after: b"} >= {}\n",
};

// Writes the text with this tail into the place.
pub(crate) fn written<'a>(place: &'a mut [u8], long: Long, tail: &[u8]) -> &'a [u8] {
    let mut w = Writer { place, len: 0 };
    w.bytes(long.head);
    for k in 0..long.count {
        w.bytes(long.before);
        w.number(k);
        w.bytes(long.after);
    }
    w.bytes(tail);
    let len = w.len;
    &place[..len.min(place.len())]
}

pub(crate) fn full(long: Long) -> Option<Board> {
    let mut place = [0u8; PLACE];
    made(written(&mut place, long, b""))
}
