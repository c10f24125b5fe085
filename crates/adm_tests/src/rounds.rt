// Rounds: who gets which school.
use crate::problems::{Table, allot, child, code, has, has_none, problem};
use adm_match::offers;
use adm_match_laws::{Kept, first_block};
use adm_rank::RankKey;
use std::test::Fail;

/// Child 2 lives nearer to A than child 1, and nearer to B than child 1 and child 3.
pub const THREE: Table = Table {
    children: &[1, 2, 3],
    lines: &[
        (1, "A", 200, 10),
        (1, "B", 1019, 10),
        (2, "A", 100, 20),
        (2, "B", 1004, 20),
        (3, "B", 2000, 30),
    ],
    tenants: &[],
    seats: &[("A", 1), ("B", 1)],
};

#[test]
fn rejects_the_farther_child(rt: HostRuntime) -> Result<(), Fail> {
    let given = allot(rt.alloc(), THREE)?;
    assert!(rt; has(&given, 2, "A")?);
    assert!(rt; has(&given, 1, "B")?);
    assert!(rt; has_none(&given, 3)?);
    assert_eq!(rt; given.proposals(), 4);
    Ok(())
}

#[test]
fn children_propose(rt: HostRuntime) -> Result<(), Fail> {
    let table = Table {
        children: &[1, 2],
        lines: &[
            (1, "A", 900, 1),
            (1, "B", 100, 1),
            (2, "B", 900, 2),
            (2, "A", 100, 2),
        ],
        tenants: &[],
        seats: &[("A", 1), ("B", 1)],
    };
    let given = allot(rt.alloc(), table)?;
    assert!(rt; has(&given, 1, "A")?);
    assert!(rt; has(&given, 2, "B")?);
    assert_eq!(rt; given.proposals(), 2);
    Ok(())
}

// Child 1 holds A and wants B, which has room; child 3 left B, and wants nothing more.
#[test]
fn a_place_given_up_is_filled_in_the_same_round(rt: HostRuntime) -> Result<(), Fail> {
    let table = Table {
        children: &[1, 2, 3],
        lines: &[(1, "B", 500, 7), (1, "A", 500, 0), (2, "A", 50, 7)],
        tenants: &[(1, "A")],
        seats: &[("A", 1), ("B", 1)],
    };
    let given = allot(rt.alloc(), table)?;
    assert!(rt; has(&given, 1, "B")?);
    assert!(rt; has(&given, 2, "A")?);
    assert!(rt; has_none(&given, 3)?);
    assert_eq!(rt; given.proposals(), 2);
    Ok(())
}

// The same, while a plan child fills A.
#[test]
fn no_place_is_filled_past_the_quota(rt: HostRuntime) -> Result<(), Fail> {
    let table = Table {
        children: &[1, 2],
        lines: &[(1, "B", 500, 7), (1, "A", 500, 0), (2, "A", 50, 7)],
        tenants: &[(1, "A")],
        seats: &[("A", 0), ("B", 1)],
    };
    let given = allot(rt.alloc(), table)?;
    assert!(rt; has(&given, 1, "B")?);
    assert!(rt; has_none(&given, 2)?);
    Ok(())
}

#[test]
fn a_tenant_keeps_its_place(rt: HostRuntime) -> Result<(), Fail> {
    let table = Table {
        children: &[1, 2],
        lines: &[(1, "A", 900, 0), (2, "A", 100, 5)],
        tenants: &[(1, "A")],
        seats: &[("A", 0)],
    };
    let given = allot(rt.alloc(), table)?;
    assert!(rt; has(&given, 1, "A")?);
    assert!(rt; has_none(&given, 2)?);
    assert!(rt; has_none(&given, 9)?);
    Ok(())
}

#[test]
fn counts_what_was_gone_through(rt: HostRuntime) -> Result<(), Fail> {
    let table = Table {
        children: &[1, 2, 3, 4],
        lines: &[
            (1, "A", 1, 1),
            (1, "B", 1, 1),
            (1, "C", 1, 1),
            (2, "A", 2, 2),
            (2, "B", 2, 2),
            (2, "C", 2, 2),
            (3, "A", 3, 3),
            (3, "B", 3, 3),
            (3, "C", 3, 3),
            (4, "A", 4, 4),
            (4, "B", 4, 4),
            (4, "C", 4, 4),
        ],
        tenants: &[],
        seats: &[("A", 1), ("B", 1), ("C", 1)],
    };
    let given = allot(rt.alloc(), table)?;
    assert_eq!(rt; given.proposals(), 9);
    assert!(rt; has_none(&given, 4)?);
    Ok(())
}

#[test]
fn finds_a_block_of_the_offers_of_another_problem(rt: HostRuntime) -> Result<(), Fail> {
    let three = problem(rt.alloc(), THREE)?;
    let empty = Table {
        children: &[],
        lines: &[],
        tenants: &[],
        seats: &[],
    };
    let nothing = offers(rt.alloc(), &problem(rt.alloc(), empty)?)?;
    assert!(rt; first_block(&three, &nothing) == Some((child(1)?, code("A")?)));
    Ok(())
}

#[test]
fn a_full_school_rejects_the_one_that_ranks_last(rt: HostRuntime) -> Result<(), Fail> {
    let near = RankKey {
        class: 1,
        distance: 5,
        lot: 1,
    };
    let far = RankKey {
        class: 1,
        distance: 5,
        lot: 2,
    };
    let mut held = Kept::new(rt.alloc(), 1);
    assert!(rt; held.take(child(1)?, far, false)?.is_none());
    assert!(rt; held.take(child(2)?, near, false)? == Some(child(1)?));
    assert!(rt; held.take(child(3)?, far, true)? == Some(child(2)?));
    Ok(())
}
