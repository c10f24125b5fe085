// The rows by which a new register differs from the one before, as they are written.
ghost use Rattle.std.specs.Prelude.{◌≡◌, ◌++◌, [], ◌∷◌, if◌then◌else◌, not, IfOk, OnOk};
ghost use Rattle.std.specs.FinMap.{contains_key};
ghost use Rattle.std.specs.List.{flat_map, list_all};
ghost use Rattle.adm_types.specs.Children.{present_row, present_of_import};
ghost use Rattle.adm_register.specs.State.{State as Facts};
ghost use Rattle.adm_register.specs.Difference.{IsDifference};
ghost use Rattle.adm_store.specs.Changes.{IsChanges, is_new_child, is_new_application, is_new_place};
ghost use Rattle.adm_rows.specs.Present.{was_present, moved_from, present_removed_of, arrived_from, present_added_by};
ghost use Rattle.adm_store.specs.Schools.{replaced_of};

use crate::rows::Changes;
use crate::to_rows::to_rows;
use adm_draws::{draw_rows, lot_rows, offer_rows};
use adm_register::{Difference, Register};
use adm_table::Shared;
use adm_types::{Application, Child, ChildNo, PlaceRow, PresentRow, Row, School, SchoolCode, Seq};
use std::alloc::{AllocError, Global};
use std::mem;

/// Adds the code of the school, where the register has a school of this code.
fn add_replaced(
    codes: &mut Vec<SchoolCode>,
    old: &Register,
    code: SchoolCode,
) -> Result<(), AllocError>
    ensures { OnOk result (codes.new.items ≡ codes.old.items ++ (if contains_key old.now.schools code then code ∷ [] else [])) }
{
    if old.school(code).is_some() {
        codes.push(code)?;
    }
    Ok(())
}

/// Those of these schools that the register had.
fn replaced(
    alloc: Global,
    old: &Register,
    schools: &[Shared<School>],
) -> Result<Vec<SchoolCode>, AllocError>
    ensures { IfOk result (λ codes. codes.items ≡ replaced_of old.now.schools schools.now) }
{
    let mut codes = Vec::new(alloc);
    'schools: for row in schools {
        add_replaced(&mut codes, old, row.as_ref().code)?;
    }
    Ok(codes)
}

/// The present school that a child of the register has.
fn present_in(old: &Register, child: ChildNo) -> Option<SchoolCode>
    ensures { result ≡ was_present old.now.children child }
{
    old.child(child)?.present
}

/// Adds the child, where it had a present school, and has another or none.
fn add_moved(
    moved: &mut Vec<ChildNo>,
    before: Option<SchoolCode>,
    child: &Child,
) -> Result<(), AllocError>
    ensures { OnOk result (moved.new.items ≡ moved.old.items ++ moved_from before child.now) }
{
    match before {
        Some(school) => {
            if Some(school) != child.present {
                moved.push(child.no)?;
            }
            Ok(())
        }
        None => Ok(()),
    }
}

/// Those of these children that had a present school, and have another or none.
fn moved(
    alloc: Global,
    old: &Register,
    children: &[Shared<Child>],
) -> Result<Vec<ChildNo>, AllocError>
    ensures { IfOk result (λ moved. moved.items ≡ present_removed_of old.now.children children.now) }
{
    let mut moved = Vec::new(alloc);
    'children: for row in children {
        let child = row.as_ref();
        add_moved(&mut moved, present_in(old, child.no), child)?;
    }
    Ok(moved)
}

/// Adds the present school of a child, where it is not the one before.
fn add_arrived(
    rows: &mut Vec<PresentRow>,
    before: Option<SchoolCode>,
    child: &Child,
) -> Result<(), AllocError>
    ensures { OnOk result (rows.new.items ≡ rows.old.items ++ arrived_from before child.now) }
{
    if before == child.present {
        return Ok(());
    }
    add_present(rows, child, false)
}

/// The present schools that these children have, and had not.
fn arrived(
    alloc: Global,
    old: &Register,
    children: &[Shared<Child>],
) -> Result<Vec<PresentRow>, AllocError>
    ensures { IfOk result (λ rows. rows.items ≡ flat_map (present_added_by old.now.children) children.now) }
{
    let mut rows = Vec::new(alloc);
    'children: for row in children {
        let child = row.as_ref();
        add_arrived(&mut rows, present_in(old, child.no), child)?;
    }
    Ok(rows)
}

/// Adds the present school of a child, where it has one.
fn add_present(
    rows: &mut Vec<PresentRow>,
    child: &Child,
    is_imported: bool,
) -> Result<(), AllocError>
    ensures { OnOk result (rows.new.items ≡ rows.old.items ++ present_row child.now.no is_imported child.now.present) }
{
    if let Some(school) = child.present {
        rows.push(PresentRow {
            child: child.no,
            is_imported,
            school,
        })?;
    }
    Ok(())
}

/// Adds the present schools of these imported rows.
fn add_imported(rows: &mut Vec<PresentRow>, imported: &[Shared<Row>]) -> Result<(), AllocError>
    ensures { OnOk result (rows.new.items ≡ rows.old.items ++ flat_map present_of_import imported.now) }
{
    'imported: for row in imported {
        add_present(rows, &row.as_ref().child, true)?;
    }
    Ok(())
}

fn is_new_child(old: &Register, child: ChildNo) -> bool
    ensures { result ≡ not (contains_key old.now.children child) }
{
    old.child(child).is_none()
}

/// None of these children was there.
fn only_new_children(old: &Register, children: &[Shared<Child>]) -> bool
    ensures { result ≡ list_all (is_new_child old.now) children.now }
{
    children
        .iter()
        .all(|row| is_new_child(old, row.as_ref().no))
}

fn is_new_application(old: &Register, child: ChildNo) -> bool
    ensures { result ≡ not (contains_key old.now.applications child) }
{
    old.application(child).is_none()
}

/// None of these children had an application.
fn only_new_applications(old: &Register, applications: &[Shared<Application>]) -> bool
    ensures { result ≡ list_all (is_new_application old.now) applications.now }
{
    applications
        .iter()
        .all(|row| is_new_application(old, row.as_ref().child))
}

fn is_new_place(old: &Register, child: ChildNo) -> bool
    ensures { result ≡ not (contains_key old.now.places child) }
{
    old.place(child).is_none()
}

/// None of these children had a place.
fn only_new_places(old: &Register, places: &[PlaceRow]) -> bool
    ensures { result ≡ list_all (is_new_place old.now) places.now }
{
    places.iter().all(|row| is_new_place(old, row.child))
}

/// The rows of this difference from the old register, as they are written. What it costs grows with them.
pub fn changes(alloc: Global, old: &Register, difference: Difference) -> Result<Changes, AllocError>
    ensures { IfOk result (λ changes. (new : Facts) → IsDifference old.now new difference → IsChanges old.now new changes) }
{
    let moved = moved(alloc, old, difference.children.as_slice())?;
    let mut present = arrived(alloc, old, difference.children.as_slice())?;
    add_imported(&mut present, difference.imported.as_slice())?;
    let replaced = replaced(alloc, old, difference.schools.as_slice())?;
    let schools = to_rows(alloc, difference.schools.as_slice())?;
    let children = to_rows(alloc, difference.children.as_slice())?;
    let applications = to_rows(alloc, difference.applications.as_slice())?;
    let draws = draw_rows(alloc, difference.draws.as_slice())?;
    let offers = offer_rows(alloc, difference.draws.as_slice())?;
    let lots = lot_rows(alloc, difference.draws.as_slice())?;
    let imported = to_rows(alloc, difference.imported.as_slice())?;
    let only_new_children = only_new_children(old, difference.children.as_slice());
    let only_new_applications = only_new_applications(old, difference.applications.as_slice());
    let only_new_places = only_new_places(old, difference.places.as_slice());
    let mut rest = difference;
    Ok(Changes {
        schools: Seq::from_vec(schools),
        replaced: Seq::from_vec(replaced),
        children: Seq::from_vec(children),
        only_new_children,
        applications: Seq::from_vec(applications),
        only_new_applications,
        places: mem::replace(&mut rest.places, Seq::new(alloc)),
        only_new_places,
        left: mem::replace(&mut rest.left, Seq::new(alloc)),
        draws: Seq::from_vec(draws),
        offers: Seq::from_vec(offers),
        lots: Seq::from_vec(lots),
        imported: Seq::from_vec(imported),
        present: Seq::from_vec(present),
        ended: mem::replace(&mut rest.ended, Seq::new(alloc)),
        vacated: mem::replace(&mut rest.vacated, Seq::new(alloc)),
        moved: Seq::from_vec(moved),
    })
}
