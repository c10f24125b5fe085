// What `Problem::new` refuses.
use crate::problems::{Line, Table, pose};
use adm_match::BadProblem;
use std::alloc::Global;
use std::test::Fail;

const A: &[(&str, u32)] = &[("A", 1)];

const TWO: &[(&str, u32)] = &[("A", 1), ("B", 1)];

/// The error of a problem of children 1 and 2.
fn fault(
    alloc: Global,
    lines: &'static [Line],
    tenants: &'static [(u32, &'static str)],
    seats: &'static [(&'static str, u32)],
) -> Result<Option<BadProblem>, Fail> {
    let table = Table {
        children: &[1, 2],
        lines,
        tenants,
        seats,
    };
    Ok(pose(alloc, table)?.err())
}

#[test]
fn equal_keys_are_refused_but_for_a_tenant(rt: HostRuntime) -> Result<(), Fail> {
    let lines: &[Line] = &[(1, "A", 1, 1), (2, "A", 1, 1)];
    assert!(rt; fault(rt.alloc(), lines, &[], A)? == Some(BadProblem::EqualRank));
    assert!(rt; fault(rt.alloc(), lines, &[(1, "A")], A)?.is_none());
    Ok(())
}

#[test]
fn lists_are_tested(rt: HostRuntime) -> Result<(), Fail> {
    let not_last: &[Line] = &[(1, "A", 1, 1), (1, "B", 1, 1)];
    assert!(rt; fault(rt.alloc(), not_last, &[(1, "A")], TWO)? == Some(BadProblem::TenantNotLast));
    let twice: &[Line] = &[(1, "A", 1, 1), (1, "A", 1, 1)];
    assert!(rt; fault(rt.alloc(), twice, &[], A)? == Some(BadProblem::RepeatedSchool));
    let unknown: &[Line] = &[(1, "C", 1, 1)];
    assert!(rt; fault(rt.alloc(), unknown, &[], TWO)? == Some(BadProblem::UnknownSchool));
    Ok(())
}

#[test]
fn a_child_comes_once(rt: HostRuntime) -> Result<(), Fail> {
    let table = Table {
        children: &[1, 1],
        lines: &[],
        tenants: &[],
        seats: A,
    };
    assert!(rt; pose(rt.alloc(), table)?.err() == Some(BadProblem::RepeatedChild));
    Ok(())
}
