// To import children with their applications.
ghost use Rattle.std.specs.Prelude.{◌≡◌, ◌||◌, map, is_some, None, IfOk, IfErr, OnOk, option_copied, if◌then◌else◌};
ghost use Rattle.std.specs.Option.{option_or};
ghost use Rattle.std.specs.BTreeMap.{keys, values, insert_entry};
ghost use Rattle.std.specs.FinMap.{get, contains_key};
ghost use Rattle.std.specs.List.Sorted.{IsPermutation};
ghost use Rattle.std.specs.Ordering.{nat_cmp};
ghost use Rattle.adm_table.specs.TableRows.{row_at};
ghost use Rattle.std.specs.List.{AllByRecursion};
ghost use Rattle.adm_commands.specs.Commands.Import.{rules, change_of, is_known, refusal_of_row, refused_from, or_later, new_rows};
ghost use Rattle.adm_commands.specs.Beside.{IsBeside};
ghost use Rattle.adm_commands.specs.KeptByTypes.{KeptByImportRow};
ghost use Rattle.adm_commands.specs.WhyNot.{Explains};
ghost use Rattle.adm_commands.specs.Rules.{Follows};
ghost use Rattle.adm_register.specs.State.{State, application_of};

use crate::NotDone;
use crate::command_result::{CommandResult, RowRefusal};
use crate::commands::{add_child, apply};
use crate::kept::kept_by_row;
use adm_register::{Difference, Tables};
use adm_table::{Same, Shared};
use adm_types::{Application, Child, ChildNo, Refusal, Reply, Row, Seq};
use std::alloc::{AllocError, Global};
use std::collections::BTreeMap;

/// The rows of an import that are new so far, by their children's numbers.
type Added = BTreeMap<ChildNo, Shared<Row>>;

/// The rows that are new, in the order of their children's numbers, and how many there are beside
/// those that were known; or the first row that is refused, with its number from 1. It takes memory
/// for the rows that are new. What it costs grows with the rows and the schools that they name, times
/// the logarithm of the children and the schools.
pub(crate) fn evaluate(
    old: &Tables,
    alloc: Global,
    rows: Seq<Row>,
) -> Result<CommandResult, AllocError>
    ensures follows { IfOk result (Follows (rules rows) old.now) }
    ensures kept { AllByRecursion KeptByImportRow rows }
{
    let length = rows.len();
    let added = match walk(old, alloc, rows) {
        Ok(added) => added,
        Err(NotDone::Refused { refusal, row }) => {
            return Ok(Err(RowRefusal { refusal, row }));
        }
        Err(NotDone::Memory) => return Err(AllocError),
    };
    let count = added.len();
    let known = length.saturating_sub(count);
    let reply = Reply::Imported {
        added: count as u64,
        known: known as u64,
    };
    let added = added.into_values().collect(alloc)?;
    Ok(Ok((rows_put(alloc, Seq::from_vec(added))?, reply)))
}

/// The rows that are not known, each row beside those before it; or why there are none. The rows
/// after the first that is refused are dropped.
fn walk(old: &Tables, alloc: Global, rows: Seq<Row>) -> Result<Added, NotDone>
    ensures passes { OnOk result (None ≡ refused_from old.now 1 rows) }
    ensures added { IfOk result (λ added. IsPermutation (new_rows old.now rows) (values added)) }
    ensures numbers { IfOk result (λ added. map (λ row. row.child.no) (values added) ≡ keys added) }
    ensures refused { IfErr result (Explains (refused_from old.now 1 rows)) }
    ensures kept { AllByRecursion KeptByImportRow rows }
{
    let mut added = BTreeMap::new(alloc);
    let mut number = 1;
    let mut walked = Ok(());
    for row in rows.into_vec() {
        kept_by_row(&row);
        match walked {
            Ok(()) => walked = take(old, alloc, &mut added, number, row),
            Err(_) => drop(row),
        }
        number += 1;
    }
    walked?;
    Ok(added)
}

/// Takes a row and its number: it joins those that are new, unless it is known.
fn take(
    old: &Tables,
    alloc: Global,
    added: &mut Added,
    number: u64,
    row: Row,
) -> Result<(), NotDone>
    ensures passes { OnOk result ((seen : State) → IsBeside old.now added.old.entries seen → refusal_of_row seen row ≡ None) }
    ensures joins { OnOk result ((seen : State) → IsBeside old.now added.old.entries seen → added.new.entries ≡ (if is_known seen row then added.old.entries else insert_entry nat_cmp added.old.entries row.child.no row)) }
    ensures refused { IfErr result (λ why. (seen : State) → IsBeside old.now added.old.entries seen → Explains (or_later number (refusal_of_row seen row) None) why) }
{
    if let Some(refusal) = refusal_of_row(old, added, &row) {
        return Err(NotDone::Refused {
            refusal,
            row: number,
        });
    }
    if is_known(old, added, &row) {
        return Ok(());
    }
    Ok(add(alloc, added, row)?)
}

/// Whether the row is equal to the imported row that is kept for its child.
fn is_known(old: &Tables, added: &Added, row: &Row) -> bool
    ensures { (seen : State) → IsBeside old.now added.now.entries seen → result ≡ is_known seen row.now }
{
    match kept_row(old, added, row.child.no) {
        None => false,
        Some(kept) => kept.is_same(row),
    }
}

/// The row that is kept for a child.
fn kept_row<'a>(old: &'a Tables, added: &'a Added, child: ChildNo) -> Option<&'a Row>
    ensures { option_copied result ≡ option_or (row_at nat_cmp added.now.entries child) (get old.now.imported child) }
{
    match added.get(&child) {
        Some(row) => Some(row.as_ref()),
        None => old.imported_row(child),
    }
}

/// Whether there is a child of this number.
fn has_child(old: &Tables, added: &Added, child: ChildNo) -> bool
    ensures { result ≡ (is_some (row_at nat_cmp added.now.entries child) || contains_key old.now.children child) }
{
    added.contains_key(&child) || old.has_child(child)
}

/// Why the row is refused.
fn refusal_of_row(old: &Tables, added: &Added, row: &Row) -> Option<Refusal>
    ensures { (seen : State) → IsBeside old.now added.now.entries seen → result ≡ refusal_of_row seen row.now }
{
    if is_known(old, added, row) {
        return None;
    }
    if has_child(old, added, row.child.no) {
        return Some(Refusal::RowDiffers);
    }
    let most = old.season().size().most_children();
    let room = most.saturating_sub(added.len());
    match add_child::refusal_with_room(room, old, &row.child) {
        Some(refusal) => Some(refusal),
        None => apply::further_refusal_of(old, row.child.no, row.day, row.preferences.as_slice()),
    }
}

/// The row joins those that are new.
fn add(alloc: Global, added: &mut Added, row: Row) -> Result<(), AllocError>
    ensures { OnOk result (added.new.entries ≡ insert_entry nat_cmp added.old.entries row.child.no row) }
{
    let row = Shared::new(alloc, row)?;
    let child = row.as_ref().child.no;
    let _there = added.insert(child, row)?;
    Ok(())
}

/// What these rows add: the children, their applications, and the rows themselves.
#[tactic(auto, unfolding(crate::specs::Commands::Import::change_of))]
fn rows_put(alloc: Global, added: Seq<Shared<Row>>) -> Result<Difference, AllocError>
    ensures { IfOk result (λ change. change ≡ change_of added) }
{
    let mut change = Difference::none(alloc);
    change.children = Seq::from_vec(children_of(alloc, added.as_slice())?);
    change.applications = Seq::from_vec(applications_of(alloc, added.as_slice())?);
    change.imported = added;
    Ok(change)
}

/// The children of the rows.
fn children_of(alloc: Global, rows: &[Shared<Row>]) -> Result<Vec<Shared<Child>>, AllocError>
    ensures { IfOk result (λ children. children.items ≡ map (λ row. row.child) rows.now) }
{
    let mut children = Vec::new(alloc);
    for row in rows {
        let child = row.as_ref().child.clone()?;
        children.push(Shared::new(alloc, child)?)?;
    }
    Ok(children)
}

/// Their applications.
fn applications_of(
    alloc: Global,
    rows: &[Shared<Row>],
) -> Result<Vec<Shared<Application>>, AllocError>
    ensures { IfOk result (λ applications. applications.items ≡ map application_of rows.now) }
{
    let mut applications = Vec::new(alloc);
    for row in rows {
        let application = application_of(row.as_ref())?;
        applications.push(Shared::new(alloc, application)?)?;
    }
    Ok(applications)
}

fn application_of(row: &Row) -> Result<Application, AllocError>
    ensures { IfOk result (λ application. application ≡ application_of row.now) }
{
    Ok(Application {
        child: row.child.no,
        day: row.day,
        list: row.preferences.clone()?,
    })
}
