// Board texts, each with the refusal that it gets.
use crate::boards::*;
use crate::calls::*;
use std::test::Fail;

#[test]
fn whole_texts(rt: HostRuntime) -> Result<(), Fail> {
    opens(
        &rt,
        NOTHING,
        ALL,
        &[
            (B1, 0, 0),
            (B2, 0, 0),
            (OFFICE, 0, 0),
            (REVOKING, 0, 0),
            (b"", 2, 1),
            (b"RBD 1", 2, 1),
            (b"RBD 2\nregime aar\n", 2, 1),
            (b"RBD 1\n", 3, 2),
            (b"RBD 1\nregime aat\n", 3, 2),
        ],
    )?;
    opens(&rt, NOTHING, SHORT_LIST, &[(B2, 7, 0)])?;
    opens(&rt, NOTHING, SHORT_TABLE, &[(B2, 7, 0)])
}

#[test]
fn under_aatu(rt: HostRuntime) -> Result<(), Fail> {
    opens(
        &rt,
        AATU,
        ALL,
        &[
            (b"", 0, 0),
            (b"ua u1 r1\n\n", 3, 4),
            (b"ua u1 r1\nua u2 r1", 3, 4),
            (b"ua u65536 r1\n", 4, 3),
            (b"rh r1 r64\n", 4, 3),
            (b"pa p32 r1\n", 4, 3),
            (b"always (((((((((r1))))))))) >= {}\n", 5, 3),
            (b"never r1 >= r4\n", 6, 3),
            (b"revoke r2 : r5\n", 8, 3),
            (b"ua u1 r1\nua u1 r2 r1\n", 10, 4),
            (b"ua u1 r1 r1\n", 10, 3),
            (b"pa p1 r1\npa p1 r1\n", 10, 4),
            (b"rh r1 r2\nrh r1 r2\n", 10, 4),
            (b"trust u1 u2\ntrust u2\n", 10, 4),
            (b"assign r1 : r2 : r3 r4\nassign r1 : (r2) : r4 r3\n", 10, 4),
            (b"always {} >= {}\nalways {} >= ({})\n", 10, 4),
            (b"rh r1 r1\n", 14, 3),
            (b"rh r1 r2\nrh r2 r3\nrh r3 r4 r1\n", 14, 5),
            (b"always r1 >= {u1}\n", 18, 0),
            (b"always r1 >= {u1}\nua u1 r1\n", 0, 0),
        ],
    )
}

#[test]
fn under_aar(rt: HostRuntime) -> Result<(), Fail> {
    opens(
        &rt,
        AAR,
        ALL,
        &[
            (b"", 0, 0),
            (b"trust u9\n", 8, 3),
            (b"revoke r1 : r2 r3\nrevoke r1 : r3 r2\n", 10, 4),
            (b"ua u1 r1\nassign r1 : true : r1\nrevoke r1 : r1\n", 15, 0),
            (b"ua u1 r1 r2\nrevoke r1 : r2\nrevoke r2 : r3\n", 15, 0),
            (b"revoke r1 : r2\n", 16, 0),
            (b"ua u1 r3\nrh r3 r1\nrevoke r1 : r2\n", 16, 0),
            (b"ua u1 r1\nassign r1 : true : r2\n", 17, 0),
        ],
    )
}

#[test]
fn full_tables(rt: HostRuntime) -> Result<(), Fail> {
    opens(&rt, ROWS, ALL, &[(b"", 0, 0), (b"ua u100 r1\n", 13, 103)])?;
    opens(
        &rt,
        ASSIGNS,
        ALL,
        &[(b"", 0, 0), (b"assign r1 : r1 : r1\n", 13, 35)],
    )?;
    opens(
        &rt,
        REVOKES,
        ALL,
        &[(b"", 0, 0), (b"revoke r63 : r16\n", 13, 20)],
    )?;
    opens(&rt, TRUSTED, ALL, &[(b"", 0, 0), (b"trust u32\n", 13, 35)])?;
    opens(
        &rt,
        REQUIREMENTS,
        ALL,
        &[(b"", 0, 0), (b"never r1 >= {u1}\n", 13, 19)],
    )
}

#[test]
fn too_long(rt: HostRuntime) -> Result<(), Fail> {
    let board = made(B1).ok_or(1)?;
    let mut opened = board;
    let text = [b'x'; 65537];
    assert_eq!(rt; open(&mut opened, &text, ALL), (1, 0));
    assert_eq!(rt; open(&mut opened, &text, SHORT_LIST), (1, 0));
    assert_eq!(rt; open(&mut opened, &text[1..], ALL), (2, 1));
    assert!(rt; same(&opened, &board));
    Ok(())
}
