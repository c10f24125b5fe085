// Distances, classes and keys on worked values.
use adm_rank::{class, distance, key};
use adm_types::limits::{is_child_in_range, is_on_map, is_school_in_range};
use adm_types::{Child, ChildNo, Criterion, Point, School, SchoolCode, Seq, Text};
use std::alloc::Global;
use std::test::Fail;

fn school(alloc: Global, code: SchoolCode) -> Result<School, Fail> {
    let criteria = vec![in alloc;
        Criterion::Sibling,
        Criterion::Within(500),
        Criterion::Flag(3),
    ]?;
    Ok(School {
        code,
        name: Text::from_string(String::new(alloc)),
        pan: 1,
        at: Point { east: 0, north: 0 },
        criteria: Seq::from_vec(criteria),
    })
}

fn child(alloc: Global, home: Point, looked_after: bool, flags: u16) -> Result<Child, Fail> {
    Ok(Child {
        no: ChildNo::new(1).ok_or("a number")?,
        name: Text::from_string(String::new(alloc)),
        home,
        looked_after,
        flags,
        siblings: Seq::new(alloc),
        present: None,
        catchments: Seq::new(alloc),
    })
}

/// The distance and the class of a child, where it and the school are in range.
fn ranked(school: &School, child: &Child) -> Result<(u32, u8), Fail> {
    if !is_school_in_range(school) || !is_child_in_range(child) {
        return Err(Fail::from("out of range"));
    }
    let key = key(school, child, 7);
    if key.class != class(school, child) || key.lot != 7 {
        return Err(Fail::from("another class or lot"));
    }
    Ok((key.distance, key.class))
}

/// The whole distance of two points of the map.
fn apart(a: Point, b: Point) -> Result<u32, Fail> {
    if !is_on_map(&a) || !is_on_map(&b) {
        return Err(Fail::from("off the map"));
    }
    Ok(distance(a, b))
}

fn point(east: u32, north: u32) -> Point {
    Point { east, north }
}

#[test]
fn rounds_distances_down(rt: HostRuntime) -> Result<(), Fail> {
    assert_eq!(rt; apart(point(0, 0), point(3, 4))?, 5);
    assert_eq!(rt; apart(point(0, 0), point(1, 1))?, 1);
    assert_eq!(rt; apart(point(1, 0), point(0, 0))?, 1);
    assert_eq!(rt; apart(point(0, 0), point(1_500_000, 1_500_000))?, 2_121_320);
    Ok(())
}

#[test]
fn takes_the_first_criterion_met(rt: HostRuntime) -> Result<(), Fail> {
    let a = school(rt.alloc(), SchoolCode::new("A").ok_or("a code")?)?;
    let near = child(rt.alloc(), point(354, 354), false, 0)?;
    assert_eq!(rt; ranked(&a, &near)?, (500, 2));
    let far = child(rt.alloc(), point(355, 355), false, 0)?;
    assert_eq!(rt; ranked(&a, &far)?, (502, 4));
    let flagged = child(rt.alloc(), point(355, 355), false, 8)?;
    assert_eq!(rt; ranked(&a, &flagged)?, (502, 3));
    Ok(())
}

#[test]
fn puts_siblings_and_looked_after_children_first(rt: HostRuntime) -> Result<(), Fail> {
    let code = SchoolCode::new("A").ok_or("a code")?;
    let a = school(rt.alloc(), code)?;
    let mut sibling = child(rt.alloc(), point(355, 355), false, 8)?;
    sibling.siblings = Seq::from_vec(vec![in rt.alloc(); code]?);
    assert_eq!(rt; ranked(&a, &sibling)?, (502, 1));
    let looked_after = child(rt.alloc(), point(1_500_000, 0), true, 0)?;
    assert_eq!(rt; ranked(&a, &looked_after)?, (1_500_000, 0));
    Ok(())
}
