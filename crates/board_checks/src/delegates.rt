// The delegates' calls, each with the number that refuses it, smallest first where more than one would.
use crate::boards::*;
use crate::calls::*;
use std::test::Fail;

#[test]
fn adding(rt: HostRuntime) -> Result<(), Fail> {
    moves(
        &rt,
        &after(B1, &[b"+ua u9 r2", b"+trust u9"]).ok_or(1)?,
        &[
            (ADD, 2, 1, 5, 0),
            (ADD, 65536, 1, 5, 4),
            (ADD, 2, 65536, 5, 4),
            (ADD, 2, 1, 64, 4),
            (ADD, 9, 1, 5, 9),
            (ADD, 2, 1, 1, 10),
            (ADD, 3, 1, 4, 12),
            (ADD, 2, 2, 5, 12),
            (ADD, 1, 1, 5, 12),
            (ADD, 9, 1, 64, 4),
            (ADD, 65536, 1, 1, 4),
            (ADD, 1, 65536, 5, 4),
            (ADD, 9, 1, 1, 9),
            (ADD, 9, 1, 4, 9),
            (ADD, 1, 1, 1, 10),
        ],
    )
}

// A user to whom a role is assigned has a row, so rows never fail one who has the role already.
#[test]
fn adding_on_full_rows(rt: HostRuntime) -> Result<(), Fail> {
    let mut board = full(ROWS).ok_or(1)?;
    for text in [b"+assign r1 : true : r2".as_slice(), b"+trust u9"] {
        assert_eq!(rt; change(&mut board, text, ALL), (0, 0));
    }
    moves(
        &rt,
        &board,
        &[
            (ADD, 1, 99, 2, 0),
            (ADD, 1, 100, 2, 13),
            (ADD, 1, 65536, 2, 4),
            (ADD, 9, 100, 2, 9),
            (ADD, 1, 100, 3, 12),
            (ADD, 100, 100, 2, 12),
        ],
    )
}

#[test]
fn removing(rt: HostRuntime) -> Result<(), Fail> {
    moves(
        &rt,
        &made(B2).ok_or(1)?,
        &[
            (REMOVE, 2, 1, 1, 0),
            (REMOVE, 65536, 1, 1, 4),
            (REMOVE, 2, 65536, 1, 4),
            (REMOVE, 2, 1, 64, 4),
            (REMOVE, 2, 1, 5, 11),
            (REMOVE, 3, 1, 1, 12),
            (REMOVE, 2, 2, 2, 12),
            (REMOVE, 65536, 1, 5, 4),
            (REMOVE, 65536, 2, 2, 4),
            (REMOVE, 1, 1, 5, 11),
        ],
    )?;
    moves(
        &rt,
        &after(B1, &[b"+trust u9"]).ok_or(1)?,
        &[
            (REMOVE, 2, 1, 1, 12),
            (REMOVE, 9, 65536, 1, 4),
            (REMOVE, 9, 1, 5, 9),
            (REMOVE, 9, 1, 1, 9),
        ],
    )
}
