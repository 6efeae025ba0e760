// Each function takes one promise to its edges.
use crate::pipeline::Pipeline;
use hierarchy::{Edge, Hierarchy};
use rbac::{Permission, Role, RoleSet, User};
use std::test::Fail;
use steps::{TooShort, close};

#[test]
fn numbers_end_at_their_ranges(rt: HostRuntime) {
    assert!(rt; User::new(65_535).is_some());
    assert!(rt; User::new(65_536).is_none());
    assert!(rt; User::new(u32::MAX).is_none());
    assert!(rt; Role::new(63).is_some());
    assert!(rt; Role::new(64).is_none());
    assert!(rt; Permission::new(31).is_some());
    assert!(rt; Permission::new(32).is_none());
}

#[test]
fn sets_hold_the_first_and_the_last_role(rt: HostRuntime) -> Result<(), Fail> {
    let first = Role::new(0).ok_or(1)?;
    let last = Role::new(63).ok_or(1)?;
    let both = RoleSet::one(first).insert(last);
    assert_eq!(rt; both.word(), 0x8000_0000_0000_0001);
    assert!(rt; both.contains(first) && both.contains(last));
    assert!(rt; both.insert(last).word() == both.word());
    assert!(rt; !both.remove(last).contains(last));
    assert!(rt; both.remove(first).remove(last).is_empty());
    assert!(rt; both.meets(RoleSet::one(last)));
    assert!(rt; !RoleSet::one(first).meets(RoleSet::one(last)));
    assert!(rt; RoleSet::one(first).is_within(both));
    assert!(rt; !both.is_within(RoleSet::one(first)));
    assert!(rt;
        RoleSet::empty()
            .union(both)
            .intersection(RoleSet::one(first))
            .word()
            == 1
    );
    Ok(())
}

#[test]
fn a_pipeline_closes_stage_by_stage(rt: HostRuntime) {
    let pipeline = Pipeline { stages: 70 };
    let mut done = [0u64; 2];
    let mut list = [99usize; 72];
    assert!(rt; close(&pipeline, &mut done, &mut list).is_ok());
    assert_eq!(rt; done[0], u64::MAX);
    assert_eq!(rt; done[1], 63);
    assert_eq!(rt; list[0], 0);
    assert_eq!(rt; list[69], 69);
    assert_eq!(rt; list[70], 99);
    assert_eq!(rt; list[71], 99);
}

#[test]
fn a_closing_starts_from_what_is_there(rt: HostRuntime) {
    let pipeline = Pipeline { stages: 6 };
    let mut done = [0b1000u64];
    let mut list = [0usize; 6];
    let taken = match close(&pipeline, &mut done, &mut list) {
        Ok(taken) => taken,
        Err(_) => 99,
    };
    assert_eq!(rt; taken, 5);
    assert_eq!(rt; done[0], 63);
}

#[test]
fn a_closing_lent_too_little_changes_nothing(rt: HostRuntime) {
    let pipeline = Pipeline { stages: 65 };
    let mut done = [5u64];
    let mut list = [7usize; 65];
    assert!(rt; close(&pipeline, &mut done, &mut list) == Err(TooShort::Words));
    assert_eq!(rt; done[0], 5);
    assert_eq!(rt; list[0], 7);
    let mut words = [5u64; 2];
    let mut few = [7usize; 64];
    assert!(rt; close(&pipeline, &mut words, &mut few) == Err(TooShort::Places));
    assert_eq!(rt; words[0], 5);
    assert_eq!(rt; few[63], 7);
}

// r0 over r1 and r2, both over r3, and r3 back over r0: a circle is no trouble for the closing.
#[test]
fn a_diamond_and_a_circle(rt: HostRuntime) -> Result<(), Fail> {
    let mut chart = Hierarchy::new();
    for pair in [(0u32, 1u32), (0, 2), (1, 3), (2, 3)] {
        let senior = Role::new(pair.0).ok_or(1)?;
        let junior = Role::new(pair.1).ok_or(1)?;
        chart.insert(Edge { senior, junior });
    }
    let top = Role::new(0).ok_or(1)?;
    let low = Role::new(3).ok_or(1)?;
    assert_eq!(rt; chart.juniors(top).word(), 15);
    assert_eq!(rt; chart.juniors(low).word(), 8);
    chart.insert(Edge {
        senior: low,
        junior: top,
    });
    assert_eq!(rt; chart.juniors(low).word(), 15);
    chart.remove(Edge {
        senior: low,
        junior: top,
    });
    assert_eq!(rt; chart.juniors(low).word(), 8);
    Ok(())
}

// A chain of all 64 roles, each over the one below it in number, so that each pass finds one edge only if it does not go on.
#[test]
fn a_backward_chain_of_all_roles(rt: HostRuntime) -> Result<(), Fail> {
    let mut chart = Hierarchy::new();
    for k in 1..64u32 {
        let senior = Role::new(k).ok_or(1)?;
        let junior = Role::new(k - 1).ok_or(1)?;
        chart.insert(Edge { senior, junior });
    }
    let last = Role::new(63).ok_or(1)?;
    assert_eq!(rt; chart.juniors(last).word(), u64::MAX);
    assert_eq!(rt; chart.members(RoleSet::from_word(0b100)).word(), 7);
    Ok(())
}
