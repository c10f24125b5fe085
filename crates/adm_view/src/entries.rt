// The entry of the document for one child, and for one school, as text.
ghost use Rattle.std.specs.Prelude.{◌≡◌, Some, IfOk, string_bytes};
ghost use Rattle.std.specs.FinMap as rows;
ghost use Rattle.serde_json.specs.Read.{read};
ghost use Rattle.serde_json.specs.Written.{compact_text};
ghost use Rattle.adm_view.specs.Children.{child_data, child_entry};
ghost use Rattle.adm_view.specs.Schools.{school_data, school_entry};
ghost use Rattle.adm_view.specs.Answers.{GivesEntry, EntryReadsBack};

use crate::children::one_child;
use crate::schools::one_school;
use adm_register::Register;
use adm_types::{Child, ChildNo, School, SchoolCode};
use std::alloc::{AllocError, Global};

/// The entry of the document for the child of this number, as a JSON object without spaces, whose
/// keys are in alphabetical order, or `None` where there is no such child. It takes memory for the
/// object as a tree and as a text, for the waiting lists of the schools that the child wants, and for
/// all pairs of children and schools that were left. What it costs grows with these schools times the
/// applications, and with those that wait there, times their logarithm. The `Err` means out of memory.
pub fn child_entry_text(
    alloc: Global,
    register: &Register,
    number: ChildNo,
) -> Result<Option<String>, AllocError>
    ensures text { GivesEntry (child_entry register.now number) result }
    ensures reads_back { EntryReadsBack (child_entry register.now number) result }
{
    // Read only so that the check sees that the rows are a register's.
    let _tables = register.tables();
    match register.child(number) {
        None => Ok(None),
        Some(child) => Ok(Some(known_child_text(alloc, register, child)?)),
    }
}

fn known_child_text(alloc: Global, register: &Register, child: &Child) -> Result<String, AllocError>
    requires { rows.get register.now.children child.now.no ≡ Some child.now }
    ensures text { IfOk result (λ text. string_bytes text ≡ compact_text (child_data register.now child.now)) }
    ensures reads_back { IfOk result (λ text. read (string_bytes text) ≡ Some (child_data register.now child.now)) }
{
    one_child(alloc, register, child)?.to_string(alloc)
}

/// The entry of the document for the school of this code, as a JSON object without spaces, whose keys
/// are in alphabetical order, or `None` where there is no such school. It takes memory for the object
/// as a tree and as a text, for the waiting list of the school, and for all places. What it costs
/// grows with the applications and the places, and with those that wait there, times their logarithm.
/// The `Err` means out of memory.
pub fn school_entry_text(
    alloc: Global,
    register: &Register,
    code: SchoolCode,
) -> Result<Option<String>, AllocError>
    ensures text { GivesEntry (school_entry register.now code) result }
    ensures reads_back { EntryReadsBack (school_entry register.now code) result }
{
    // Read only so that the check sees that the rows are a register's.
    let _tables = register.tables();
    match register.school(code) {
        None => Ok(None),
        Some(school) => Ok(Some(known_school_text(alloc, register, school)?)),
    }
}

fn known_school_text(
    alloc: Global,
    register: &Register,
    school: &School,
) -> Result<String, AllocError>
    requires { rows.get register.now.schools school.now.code ≡ Some school.now }
    ensures text { IfOk result (λ text. string_bytes text ≡ compact_text (school_data register.now school.now)) }
    ensures reads_back { IfOk result (λ text. read (string_bytes text) ≡ Some (school_data register.now school.now)) }
{
    one_school(alloc, register, school)?.to_string(alloc)
}
