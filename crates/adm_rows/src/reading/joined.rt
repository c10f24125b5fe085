// The rows of present schools, joined to the children and the imported rows that they are of.
ghost use Rattle.std.specs.Prelude.{◌≡◌, ◌++◌, true, false, List, map, IfOk, OnOk, IfErr};
ghost use Rattle.std.specs.List.{flat_map, AllByRecursion};
ghost use Rattle.std.specs.List.Sorted.{IsPermutation};
ghost use Rattle.adm_types.specs.declared.rows.Child.{Child as ChildFacts};
ghost use Rattle.adm_types.specs.declared.rows.Row.{Row as ImportFacts};
ghost use Rattle.adm_types.specs.Children.{bare_child, bare_import, present_of_child, present_of_import, presents_of};
ghost use Rattle.adm_rows.specs.Joins.{IsJoin, IsWithout, IsOnceEachKey, left_rows, import_no};

use adm_register::RowsFault;
use adm_types::{Child, ChildNo, PresentRow, Row, SchoolCode};
use std::alloc::Global;
use std::collections::BTreeMap;

/// The schools of rows that are not given yet, by the child and whether its row is an imported one.
type PresentSchools = BTreeMap<(ChildNo, bool), SchoolCode>;

/// Gives each child and each imported row its present school, or none where no row says one. A row
/// that is nobody's, or is repeated, is a bad row, and then some may have been given theirs. Takes
/// memory for one school a row, and a search among them for each row, child and imported row.
pub(super) fn join(
    alloc: Global,
    rows: &[PresentRow],
    children: &mut Vec<Child>,
    imported: &mut Vec<Row>,
) -> Result<(), RowsFault>
    ensures same_children { map bare_child children.new.items ≡ map bare_child children.old.items }
    ensures same_imports { map bare_import imported.new.items ≡ map bare_import imported.old.items }
    ensures ok { OnOk result (IsPermutation (presents_of children.new.items imported.new.items) rows.now) }
    ensures bad { IfErr result (λ fault. fault ≡ RowsFault.BadRow → (joined : List ChildFacts) (joined_imports : List ImportFacts) → IsJoin children.old.items imported.old.items rows.now joined joined_imports → ⊥) }
{
    let mut left = by_child(alloc, rows)?;
    give_children(&mut left, children);
    give_imported(&mut left, imported);
    if left.is_empty() {
        Ok(())
    } else {
        Err(RowsFault::BadRow)
    }
}

/// The schools of these rows; a bad row where two have one key.
fn by_child(alloc: Global, rows: &[PresentRow]) -> Result<PresentSchools, RowsFault>
    ensures ok { IfOk result (λ left. IsPermutation rows.now (left_rows left)) }
    ensures bad { IfErr result (λ fault. fault ≡ RowsFault.BadRow → IsOnceEachKey rows.now → ⊥) }
{
    let mut left = BTreeMap::new(alloc);
    for row in rows {
        match left.insert((row.child, row.is_imported), row.school) {
            Ok(None) => {}
            Ok(Some(_)) => return Err(RowsFault::BadRow),
            Err(_) => return Err(RowsFault::Memory),
        }
    }
    Ok(left)
}

/// Each child takes its own school out of those that remain.
fn give_children(left: &mut PresentSchools, children: &mut [Child])
    ensures same { map bare_child children.new ≡ map bare_child children.old }
    ensures given { IsPermutation (left_rows left.old) (flat_map present_of_child children.new ++ left_rows left.new) }
    ensures taken { AllByRecursion (λ child. IsWithout (left_rows left.new) false child.no) children.new }
{
    for child in children.iter_mut() {
        child.present = left.remove(&(child.no, false));
    }
}

/// Each imported row takes its own school out of those that remain.
fn give_imported(left: &mut PresentSchools, imported: &mut [Row])
    ensures same { map bare_import imported.new ≡ map bare_import imported.old }
    ensures given { IsPermutation (left_rows left.old) (flat_map present_of_import imported.new ++ left_rows left.new) }
    ensures taken { AllByRecursion (λ row. IsWithout (left_rows left.new) true (import_no row)) imported.new }
{
    for row in imported.iter_mut() {
        row.child.present = left.remove(&(row.child.no, true));
    }
}
