// Inputs that more than one number refuses: the smallest is answered.
use crate::boards::*;
use crate::calls::*;
use std::test::Fail;

#[test]
fn in_a_question(rt: HostRuntime) -> Result<(), Fail> {
    asks(
        &rt,
        &made(B1).ok_or(1)?,
        SHORT_LIST,
        &[
            (&[b'p'; 1025], 1, 0),
            (b"possible r64 >= {u1} ", 3, 1),
            (b"possible (((((((((r1))))))))) >= {} ", 3, 1),
            (b"possible r1 >= r2 ", 3, 1),
            (b"possible (((((((((r64))))))))) >= {}", 4, 1),
            (b"possible r64 >= r1", 4, 1),
            (b"possible (((((((((r1))))))))) >= r2", 5, 1),
            (b"possible r1 >= r2", 6, 1),
        ],
    )
}

// No line can be refused with 5 or 6 and also with 8 or 14, nor with 6 and also with 10: only rules that assign and requirements have sets, and what is not semi-static is never there already.
#[test]
fn in_the_text_of_a_change(rt: HostRuntime) -> Result<(), Fail> {
    changes(
        &rt,
        &after(B1, &[b"+always {u1} >= r4"]).ok_or(1)?,
        ALL,
        &[
            (b"+revoke r2 : r5 ", 3, 1),
            (b"+ua u1 r1 r1 ", 3, 1),
            (b"-ua u9 r1 ", 3, 1),
            (b"+rh r1 r1 ", 3, 1),
            (b"+assign r2 : true : r1 ", 3, 1),
            (b"+assign r64 : (((((((((r1))))))))) : r1", 4, 1),
            (b"+never r64 >= r1", 4, 1),
            (b"+revoke r64 : r1", 4, 1),
            (b"+ua u1 r1 r64", 4, 1),
            (b"-ua u9 r64", 4, 1),
            (b"+rh r1 r1 r64", 4, 1),
            (b"+assign r2 : true : r1 r64", 4, 1),
            (b"+never (((((((((r1))))))))) >= r2", 5, 1),
            (b"+assign r2 : (((((((((r1))))))))) : r5 r5", 5, 1),
            (b"-never (((((((((r1))))))))) >= {}", 5, 1),
            (b"+always (((((((((r9))))))))) >= {u1}", 5, 1),
            (b"-never r1 >= r4", 6, 1),
            (b"+always r9 >= r1", 6, 1),
        ],
    )
}

#[test]
fn too_little_lent(rt: HostRuntime) -> Result<(), Fail> {
    changes(
        &rt,
        &after(B1, &[b"+always {u1} >= r4"]).ok_or(1)?,
        SHORT_TABLE,
        &[
            (&[b'+'; 1025], 1, 0),
            (b"+ua u1 r1 r1 ", 3, 1),
            (b"+ua u1 r64", 4, 1),
            (b"+assign r2 : (((((((((r1))))))))) : r5", 5, 1),
            (b"+never r1 >= r4", 6, 1),
            (b"+revoke r2 : r5", 7, 0),
            (b"+ua u1 r1", 7, 0),
            (b"-ua u1 r9", 7, 0),
            (b"+rh r1 r1", 7, 0),
            (b"+assign r2 : true : r1", 7, 0),
        ],
    )?;
    let whole: [Case; 3] = [
        (b"+revoke r2 : r3", 7, 0),
        (b"-ua u2 r2", 7, 0),
        (b"-revoke r3 : r4", 7, 0),
    ];
    changes(&rt, &made(B2).ok_or(1)?, SHORT_LIST, &whole)?;
    changes(
        &rt,
        &full(ROWS).ok_or(1)?,
        SHORT_LIST,
        &[(b"+ua u100 r1", 7, 0)],
    )
}

// A wrong regime never comes with the properties of aar: under aatu they are not asked for, and under aar a `trust` line touches none of them.
#[test]
fn a_wrong_regime(rt: HostRuntime) -> Result<(), Fail> {
    changes(
        &rt,
        &after(B1, &[b"+always r1 >= {u1}"]).ok_or(1)?,
        ALL,
        &[
            (b"+revoke r2 : r5 r5", 8, 1),
            (b"-revoke r2 : r5 r5", 8, 1),
            (b"-revoke r2 : r5", 8, 1),
            (b"+revoke r2 : r1", 8, 1),
        ],
    )?;
    changes(
        &rt,
        &made(B2).ok_or(1)?,
        ALL,
        &[
            (b"+trust u9 u9", 8, 1),
            (b"-trust u9", 8, 1),
            (
                b"+trust u0 u1 u2 u3 u4 u5 u6 u7 u8 u9 u10 u11 u12 u13 u14 u15 u16 u17 u18 u19 u20 u21 u22 u23 u24 u25 u26 u27 u28 u29 u30 u31 u32",
                8,
                1,
            ),
        ],
    )
}

// What is not there makes no administering role a target, and leaves every target revocable.
#[test]
fn there_or_not(rt: HostRuntime) -> Result<(), Fail> {
    let first = after(
        B1,
        &[b"+rh r1 r7", b"+always r1 >= {u1}", b"+always {u1} >= r4"],
    );
    changes(
        &rt,
        &first.ok_or(1)?,
        ALL,
        &[
            (b"-ua u1 r9 r9", 10, 1),
            (b"+rh r7 r1 r1", 10, 1),
            (b"+rh r1 r7 r1", 10, 1),
            (b"+assign r2 : true : r1 r1", 10, 1),
            (b"+ua u2 r2 r1", 10, 1),
            (b"-ua u1 r1 r9", 11, 1),
            (b"-ua u1 r9 r1", 11, 1),
        ],
    )?;
    changes(
        &rt,
        &made(B2).ok_or(1)?,
        ALL,
        &[
            (b"+assign r2 : true : r2 r2", 10, 1),
            (b"-ua u2 r2 r2", 10, 1),
            (b"+assign r9 : true : r4 r4", 10, 1),
            (b"+assign r2 : true : r7 r7", 10, 1),
            (b"-ua u2 r2 r9", 11, 1),
        ],
    )
}

const ASSIGNS_UNDER_AAR: Long = Long {
    head: b"RBD 1\nregime aar\nua u1 r63\nrevoke r63 : r1\n",
    before: b"assign r63 : r",
    count: 32,
    after: b" : r1\n",
};

// Edges are in no table that can be full, so none of these lines closes a circle.
#[test]
fn full_tables(rt: HostRuntime) -> Result<(), Fail> {
    let rows: [Case; 3] = [
        (b"+ua u100 r1 ", 3, 1),
        (b"+ua u100 r64", 4, 1),
        (b"+ua u100 r1 r1", 10, 1),
    ];
    changes(&rt, &full(ROWS).ok_or(1)?, ALL, &rows)?;
    let assigns: [Case; 2] = [
        (b"+assign r1 : (((((((((r1))))))))) : r1", 5, 1),
        (b"+assign r1 : true : r0", 10, 1),
    ];
    changes(&rt, &full(ASSIGNS).ok_or(1)?, ALL, &assigns)?;
    let revokes: [Case; 2] = [(b"+revoke r63 : r63", 13, 1), (b"+revoke r62 : r20", 13, 1)];
    changes(&rt, &full(REVOKES).ok_or(1)?, ALL, &revokes)?;
    let never_revoked: [Case; 1] = [(b"+assign r63 : true : r2", 13, 1)];
    changes(&rt, &full(ASSIGNS_UNDER_AAR).ok_or(1)?, ALL, &never_revoked)?;
    let requirements: [Case; 2] = [(b"+never r1 >= r2", 6, 1), (b"+always r1 >= {u1}", 13, 1)];
    changes(&rt, &full(REQUIREMENTS).ok_or(1)?, ALL, &requirements)
}

// A circle never comes with the properties of aar, since they look at no edges.
#[test]
fn whole_boards(rt: HostRuntime) -> Result<(), Fail> {
    let circle = after(B1, &[b"+ua u4 r1", b"+rh r6 r1", b"+always {u1} >= r6"]);
    changes(&rt, &circle.ok_or(1)?, ALL, &[(b"+rh r1 r6", 14, 1)])?;
    changes(
        &rt,
        &after(B2, &[b"+always r2 >= {u2}", b"+always {} >= r7"]).ok_or(1)?,
        ALL,
        &[
            (b"+revoke r2 : r3 r64", 4, 1),
            (b"-ua u2 r2 r64", 4, 1),
            (b"+assign r2 : true : r7 r64", 4, 1),
            (b"+assign r2 : (((((((((r1))))))))) : r2", 5, 1),
            (b"+assign r9 : (((((((((r1))))))))) : r4", 5, 1),
            (b"+assign r2 : (((((((((r1))))))))) : r7", 5, 1),
            (b"+revoke r9 : r9", 15, 0),
            (b"+assign r2 : true : r2", 15, 0),
            (b"+revoke r2 : r2", 15, 0),
            (b"+assign r9 : true : r8", 16, 0),
            (b"-ua u2 r2", 16, 0),
            (b"+assign r2 : true : r7", 17, 0),
        ],
    )
}

#[test]
fn in_an_opening(rt: HostRuntime) -> Result<(), Fail> {
    opens(
        &rt,
        NOTHING,
        ALL,
        &[
            (b"RBD 2\nregime\n", 2, 1),
            (b"RBD 1\nregime\nua u1 r64\n", 3, 2),
        ],
    )?;
    opens(
        &rt,
        AATU,
        ALL,
        &[
            (b"rh r1 r1\nua u1\n", 14, 3),
            (b"never r1 >= r2\nua u1 r64\n", 6, 3),
            (b"always r1 >= {u1}\nua u1 r64 \n", 3, 4),
            (b"revoke r64 : r1\n", 4, 3),
            (b"revoke r1 : r2 r2\n", 8, 3),
            (b"rh r1 r1 r1\n", 10, 3),
        ],
    )?;
    opens(
        &rt,
        AAR,
        ALL,
        &[
            (b"revoke r1 : r1\nua u1 r1 r1\n", 10, 4),
            (b"revoke r1 : r1\n", 15, 0),
            (b"ua u1 r1\nassign r1 : true : r1\n", 15, 0),
            (b"assign r1 : true : r2\nalways r1 >= {u1}\n", 16, 0),
            (b"ua u1 r1\nassign r1 : true : r2\nalways {} >= r2\n", 17, 0),
        ],
    )
}

#[test]
fn in_an_opening_with_too_little_lent(rt: HostRuntime) -> Result<(), Fail> {
    opens(
        &rt,
        NOTHING,
        SHORT_TABLE,
        &[(b"", 2, 1), (b"RBD 1\n", 3, 2)],
    )?;
    opens(
        &rt,
        AATU,
        SHORT_TABLE,
        &[
            (b"ua u1 r64\n", 4, 3),
            (b"revoke r1 : r2\n", 8, 3),
            (b"rh r1 r1\n", 14, 3),
            (b"always r1 >= {u1}\n", 7, 0),
        ],
    )?;
    opens(
        &rt,
        AAR,
        SHORT_LIST,
        &[
            (b"ua u1 r1 r1\n", 10, 3),
            (b"revoke r1 : r1\n", 7, 0),
            (b"revoke r1 : r2\n", 7, 0),
            (b"ua u1 r1\nassign r1 : true : r2\n", 7, 0),
        ],
    )
}
