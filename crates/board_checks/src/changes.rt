// Officers' changes, each with the refusal that it gets.
use crate::boards::*;
use crate::calls::*;
use std::test::Fail;

#[test]
fn texts(rt: HostRuntime) -> Result<(), Fail> {
    changes(
        &rt,
        &made(B1).ok_or(1)?,
        ALL,
        &[
            (&[b'+'; 1025], 1, 0),
            (&[b'+'; 1024], 3, 1),
            (b"", 3, 1),
            (b"ua u5 r1", 3, 1),
            (b"+ua u5", 3, 1),
            (b"+ua u5 r1\n", 3, 1),
            (b"+regime aar", 3, 1),
            (b"+ua u65536 r1", 4, 1),
            (b"-pa p32 r1", 4, 1),
            (b"+assign r2 : r64 : r5", 4, 1),
            (
                b"+assign r2 : r1|r1|r1|r1|r1|r1|r1|r1|r1|r1|r1|r1|r1|r1|r1|r1 : r5",
                0,
                0,
            ),
            (
                b"+assign r2 : r1|r1|r1|r1|r1|r1|r1|r1|r1|r1|r1|r1|r1|r1|r1|r1|r1 : r5",
                5,
                1,
            ),
            (b"+always (((((((((r1))))))))) >= {}", 5, 1),
            (b"+never r1 >= r4", 6, 1),
        ],
    )
}

#[test]
fn what_is_there_or_not(rt: HostRuntime) -> Result<(), Fail> {
    let board = after(
        B1,
        &[
            b"+rh r1 r7",
            b"+trust u9",
            b"+pa p1 r1",
            b"+always {u1} >= r1",
        ],
    );
    changes(
        &rt,
        &board.ok_or(1)?,
        ALL,
        &[
            (b"+revoke r2 : r5", 8, 1),
            (b"-revoke r2 : r5", 8, 1),
            (b"+ua u1 r2 r1", 10, 1),
            (b"+ua u1 r2 r2", 10, 1),
            (b"-ua u1 r1 r1", 10, 1),
            (b"+pa p1 r1", 10, 1),
            (b"+rh r1 r7", 10, 1),
            (b"+trust u8 u9", 10, 1),
            (b"-trust u9 u9", 10, 1),
            (b"+assign r2 : (r1) : r5", 10, 1),
            (b"+always {u1} >= (r1)", 10, 1),
            (b"-ua u1 r1 r2", 11, 1),
            (b"-pa p2 r1", 11, 1),
            (b"-rh r7 r1", 11, 1),
            (b"-trust u1", 11, 1),
            (b"-assign r2 : r1 : r4", 11, 1),
            (b"-assign r2 : true : r5", 11, 1),
            (b"-never {u1} >= r1", 11, 1),
            (b"+rh r8 r8", 14, 1),
            (b"+rh r7 r8 r1", 14, 1),
        ],
    )
}

#[test]
fn whole_boards(rt: HostRuntime) -> Result<(), Fail> {
    changes(
        &rt,
        &after(B2, &[b"+always {u1} >= r4"]).ok_or(1)?,
        ALL,
        &[
            (b"+trust u9", 8, 1),
            (b"-trust u9", 8, 1),
            (b"+revoke r2 : r1 r5", 10, 1),
            (b"-revoke r2 : r5", 11, 1),
            (b"+assign r5 : true : r1", 15, 0),
            (b"+revoke r2 : r3", 15, 0),
            (b"-ua u2 r2", 16, 0),
            (b"+assign r9 : true : r4", 16, 0),
            (b"-revoke r3 : r4", 17, 0),
            (b"+assign r2 : true : r7", 17, 0),
            (b"+assign r2 : true : r1", 18, 0),
            (b"+always r1 >= {u1}", 18, 0),
            (b"+ua u2 r1", 18, 0),
            (b"+ua u4 r2", 0, 0),
            (b"-assign r2 : r1 : r5", 0, 0),
            (b"+revoke r3 : r9", 0, 0),
        ],
    )
}

#[test]
fn too_little_lent(rt: HostRuntime) -> Result<(), Fail> {
    let board = made(B1).ok_or(1)?;
    changes(&rt, &board, SHORT_LIST, &[(b"+ua u4 r1", 7, 0)])?;
    changes(&rt, &board, SHORT_TABLE, &[(b"-ua u1 r1", 7, 0)])
}

#[test]
fn full_tables(rt: HostRuntime) -> Result<(), Fail> {
    let rows: [Case; 2] = [(b"+ua u100 r1", 13, 1), (b"+ua u99 r2", 0, 0)];
    changes(&rt, &full(ROWS).ok_or(1)?, ALL, &rows)?;
    let assigns: [Case; 1] = [(b"+assign r2 : true : r1", 13, 1)];
    changes(&rt, &full(ASSIGNS).ok_or(1)?, ALL, &assigns)?;
    let revokes: [Case; 1] = [(b"+revoke r63 : r16", 13, 1)];
    changes(&rt, &full(REVOKES).ok_or(1)?, ALL, &revokes)?;
    let trusted: [Case; 3] = [
        (b"+trust u32", 13, 1),
        (b"-trust u31", 0, 0),
        (b"-trust u32", 11, 1),
    ];
    changes(&rt, &full(TRUSTED).ok_or(1)?, ALL, &trusted)?;
    let requirements: [Case; 1] = [(b"+never r1 >= {u1}", 13, 1)];
    changes(&rt, &full(REQUIREMENTS).ok_or(1)?, ALL, &requirements)
}

// Whoever loses the last role leaves a row free.
#[test]
fn a_row_becomes_free(rt: HostRuntime) -> Result<(), Fail> {
    let mut board = full(ROWS).ok_or(1)?;
    assert_eq!(rt; change(&mut board, b"-ua u5 r1", ALL), (0, 0));
    changes(&rt, &board, ALL, &[(b"+ua u100 r1", 0, 0)])
}
