// What a child would have under another list.
use crate::problems::{child, code, problem};
use crate::rounds::THREE;
use adm_match::{WhatIfFault, what_if};
use adm_types::SchoolCode;
use std::alloc::Global;
use std::test::Fail;

fn codes(alloc: Global, schools: &[&str]) -> Result<Vec<SchoolCode>, Fail> {
    let mut codes = Vec::new(alloc);
    for school in schools {
        codes.push(code(school)?)?;
    }
    Ok(codes)
}

/// What the child would have with that list, in the problem of three children.
fn asked(
    alloc: Global,
    number: u32,
    schools: &[&str],
) -> Result<Result<Option<SchoolCode>, WhatIfFault>, Fail> {
    let three = problem(alloc, THREE)?;
    let schools = codes(alloc, schools)?;
    Ok(what_if(alloc, &three, child(number)?, &schools))
}

#[test]
fn another_order_gains_nothing(rt: HostRuntime) -> Result<(), Fail> {
    let b = Some(code("B")?);
    assert!(rt; asked(rt.alloc(), 1, &["A", "B"])? == Ok(b));
    assert!(rt; asked(rt.alloc(), 1, &["B"])? == Ok(b));
    assert!(rt; asked(rt.alloc(), 1, &["A"])? == Ok(None));
    assert!(rt; asked(rt.alloc(), 1, &[])? == Ok(None));
    Ok(())
}

#[test]
fn only_its_own_schools_may_be_listed(rt: HostRuntime) -> Result<(), Fail> {
    assert!(rt; asked(rt.alloc(), 1, &["B", "B"])? == Err(WhatIfFault::NotItsSchools));
    assert!(rt; asked(rt.alloc(), 3, &["B", "A"])? == Err(WhatIfFault::NotItsSchools));
    assert!(rt; asked(rt.alloc(), 9, &["A"])? == Err(WhatIfFault::UnknownChild));
    Ok(())
}
