// Children with their applications, places and the schools that they left.
ghost use Rattle.std.specs.Prelude.{◌≡◌, ◌≤◌, Some, IfOk, All, map, length, filter, count_by, nat_eq};
ghost use Rattle.std.specs.FinMap as rows;
ghost use Rattle.serde_json.specs.View.{view};
ghost use Rattle.adm_types.specs.declared.rows.Child.{Child as ChildRow};
ghost use Rattle.adm_types.specs.declared.rows.LeftPair.{LeftPair as Pair};
ghost use Rattle.adm_view.specs.Waits.{HasWaits, HasWaitsOf};
ghost use Rattle.adm_view.specs.Left.{is_below, is_upto, Rise};
ghost use Rattle.adm_view.specs.Children.{child_data, children_data};

use crate::kinds::{Kind, list};
use crate::members::child_members;
use crate::places::place;
use crate::preferences::application;
use crate::waits::{Waits, waits_of};
use adm_register::Register;
use adm_table::Shared;
use adm_types::{Child, ChildNo, LeftPair, SchoolCode};
use serde_json::Value;
use std::alloc::{AllocError, Global};

/// All children, by their numbers.
pub(crate) fn children(
    alloc: Global,
    register: &Register,
    waits: &Waits,
) -> Result<Value, AllocError>
    requires { HasWaits register.now waits.now }
    ensures { IfOk result (λ made. view made ≡ children_data register.now) }
{
    let tables = register.tables();
    let left = tables.all_left(alloc)?;
    let all = tables.all_children(alloc)?;
    Ok(Value::from(each_child(alloc, register, waits, &left, &all)?))
}

fn each_child(
    alloc: Global,
    register: &Register,
    waits: &Waits,
    left: &[LeftPair],
    children: &[Shared<Child>],
) -> Result<Vec<Value>, AllocError>
    requires waits { HasWaits register.now waits.now }
    requires left { left.now ≡ rows.values register.now.left }
    requires children { All (λ (child : ChildRow). rows.get register.now.children child.no ≡ Some child) children.now }
    ensures { IfOk result (λ made. map view made.items ≡ map (child_data register.now) children.now) }
{
    let mut made = Vec::new(alloc);
    for index in 0..children.len() {
        made.push(child(alloc, register, waits, left, children[index].as_ref())?)?;
    }
    Ok(made)
}

/// One child by itself. It takes memory for all pairs of children and schools that were left.
pub(crate) fn one_child(
    alloc: Global,
    register: &Register,
    one: &Child,
) -> Result<Value, AllocError>
    requires { rows.get register.now.children one.now.no ≡ Some one.now }
    ensures { IfOk result (λ made. view made ≡ child_data register.now one.now) }
{
    let waits = waits_of(alloc, register, one.no)?;
    let left = register.tables().all_left(alloc)?;
    child(alloc, register, &waits, &left, one)
}

fn child(
    alloc: Global,
    register: &Register,
    waits: &Waits,
    left: &[LeftPair],
    child: &Child,
) -> Result<Value, AllocError>
    requires waits { HasWaitsOf register.now child.now.no waits.now }
    requires left { left.now ≡ rows.values register.now.left }
    requires child { rows.get register.now.children child.now.no ≡ Some child.now }
    ensures { IfOk result (λ made. view made ≡ child_data register.now child.now) }
{
    // Read only so that the check sees that the rows are a register's.
    let _tables = register.tables();
    let mut object = child_members(alloc, child)?;
    let application = application(alloc, register, waits, child)?;
    serde_json::put(&mut object, alloc, "application", application)?;
    let left = list(alloc, &left_by(alloc, left, child.no)?)?;
    serde_json::put(&mut object, alloc, "left", left)?;
    let place = place(alloc, register.place(child.no))?;
    serde_json::put(&mut object, alloc, "place", place)?;
    Ok(Value::from(object))
}

/// The codes of the schools that the child left, of pairs in the order of the children.
fn left_by(alloc: Global, left: &[LeftPair], child: ChildNo) -> Result<Vec<SchoolCode>, AllocError>
    requires { Rise left.now }
    ensures { IfOk result (λ codes. codes.items ≡ map (λ (pair : Pair). pair.school) (filter (λ (pair : Pair). nat_eq pair.child child) left.now)) }
{
    let start = count_below(left, child);
    let end = count_upto(left, child);
    let rest = &left[start..];
    codes_of(alloc, &rest[..end - start])
}

/// The codes of the schools of the pairs.
fn codes_of(alloc: Global, pairs: &[LeftPair]) -> Result<Vec<SchoolCode>, AllocError>
    ensures { IfOk result (λ codes. codes.items ≡ map (λ (pair : Pair). pair.school) pairs.now) }
{
    pairs.iter().map(|pair| pair.school).collect(alloc)
}

/// How many of the pairs, which are in the order of the children, are of a child before this one.
fn count_below(left: &[LeftPair], child: ChildNo) -> usize
    requires { Rise left.now }
    ensures value { result ≡ count_by (is_below child) left.now }
    ensures upper { result ≤ length left.now }
{
    left.partition_point(|pair| pair.child < child)
}

/// How many of them are of a child before this one or of this one.
fn count_upto(left: &[LeftPair], child: ChildNo) -> usize
    requires { Rise left.now }
    ensures value { result ≡ count_by (is_upto child) left.now }
    ensures upper { result ≤ length left.now }
{
    left.partition_point(|pair| pair.child <= child)
}
