// Questions, each with the refusal that it gets.
use crate::boards::*;
use crate::calls::*;
use std::test::Fail;

#[test]
fn texts(rt: HostRuntime) -> Result<(), Fail> {
    asks(
        &rt,
        &made(B1).ok_or(1)?,
        ALL,
        &[
            (b"possible r4 >= {u1}", 0, 0),
            (b"necessary {u65535} >= p31&r63", 0, 0),
            (&[b'p'; 1025], 1, 0),
            (&[b'p'; 1024], 3, 1),
            (b"", 3, 1),
            (b"always r4 >= {u1}", 3, 1),
            (b"possible r4 >= {u1}\n", 3, 1),
            (b"possible r4 >= {u1", 3, 1),
            (b"possible r64 >= {u1}", 4, 1),
            (b"possible r4 >= {u65536}", 4, 1),
            (b"necessary p32 >= {u1}", 4, 1),
            (b"possible (((((((((r1))))))))) >= {}", 5, 1),
            (b"possible r4 >= r1", 6, 1),
            (b"necessary p1 >= r1&{u1}", 6, 1),
        ],
    )
}

#[test]
fn too_little_lent(rt: HostRuntime) -> Result<(), Fail> {
    let board = made(B1).ok_or(1)?;
    asks(&rt, &board, SHORT_LIST, &[(b"possible {} >= {}", 7, 0)])?;
    asks(&rt, &board, SHORT_TABLE, &[(b"possible {} >= {}", 7, 0)])
}

// Both sides together have two operands more than the numbers.
const OPERANDS: Long = Long {
    head: b"possible {}",
    before: b"|r",
    count: 30,
    after: b"",
};

#[test]
fn operands(rt: HostRuntime) -> Result<(), Fail> {
    let board = made(B1).ok_or(1)?;
    let mut place = [0u8; PLACE];
    let most = written(&mut place, OPERANDS, b" >= {}");
    assert_eq!(rt; ask(&board, most, ALL), (0, 0));
    let more = written(&mut place, OPERANDS, b" >= {u1,u2}");
    assert_eq!(rt; ask(&board, more, ALL), (5, 1));
    Ok(())
}
