// The waiting list of a school.
ghost use Rattle.std.specs.Prelude.{◌≡◌, IfOk, [], ◌∷◌, map, string_bytes};
ghost use Rattle.adm_letters.specs.Answers.{GivesText};
ghost use Rattle.adm_letters.specs.declared.fault.LetterFault.TheVariants.{UnknownSchool};
ghost use Rattle.adm_letters.specs.Lines.{AddsLines, lines_text};
ghost use Rattle.adm_letters.specs.Lists.{list_head, columns, list_row, list_foot, list_lines, list_text};

use crate::LetterFault;
use adm_register::Register;
use adm_types::{School, SchoolCode};
use adm_waiting::Waiting;
use std::alloc::{AllocError, Global};
use std::fmt::Write;

/// The waiting list of the school, in the order of the positions and then of the children's numbers,
/// and how many places the school has left. It takes memory for the list and for the text; what it
/// costs grows with the applications, the places and, times its logarithm, the list.
///
/// Where it is an error, there is no such school (`UnknownSchool`), or memory ran out.
pub fn list_text(
    alloc: Global,
    register: &Register,
    school: SchoolCode,
) -> Result<String, LetterFault>
    ensures { GivesText (list_text register.now school) UnknownSchool result }
{
    let waiting = register.waiting(alloc, school)?;
    let vacancies = register.vacancies(school).unwrap_or(0);
    match register.school(school) {
        Some(found) => Ok(list(alloc, found, &waiting, vacancies)?),
        None => Err(LetterFault::UnknownSchool),
    }
}

/// The waiting list of the school, which has so many places left.
fn list(
    alloc: Global,
    school: &School,
    waiting: &[Waiting],
    vacancies: u32,
) -> Result<String, AllocError>
    ensures { IfOk result (λ text. string_bytes text ≡ lines_text (list_lines school.now waiting.now vacancies)) }
{
    let mut text = String::new(alloc);
    put_head(&mut text, school)?;
    put_columns(&mut text)?;
    put_rows(&mut text, waiting)?;
    put_foot(&mut text, waiting.len(), vacancies)?;
    Ok(text)
}

fn put_head(text: &mut String, school: &School) -> Result<(), AllocError>
    ensures { IfOk result (λ _. AddsLines text.old (list_head school.now.code school.now.name ∷ []) text.new) }
{
    head_line(text, school.code.as_str(), school.name.as_str())
}

#[tactic(auto, unfolding(crate::specs::Lists::list_head))]
fn head_line(text: &mut String, code: &str, name: &str) -> Result<(), AllocError>
    ensures { IfOk result (λ _. AddsLines text.old (list_head code.now name.now ∷ []) text.new) }
{
    writeln!(text, "Waiting list of {code} {name}")
}

#[tactic(auto, unfolding(crate::specs::Lists::columns))]
fn put_columns(text: &mut String) -> Result<(), AllocError>
    ensures { IfOk result (λ _. AddsLines text.old (columns ∷ []) text.new) }
{
    writeln!(text, "  Pos    Child Cls   Metres")
}

fn put_rows(text: &mut String, waiting: &[Waiting]) -> Result<(), AllocError>
    ensures { IfOk result (λ _. AddsLines text.old (map list_row waiting.now) text.new) }
{
    for entry in waiting {
        put_row(text, entry)?;
    }
    Ok(())
}

#[tactic(auto, unfolding(crate::specs::Lists::list_row))]
fn put_row(text: &mut String, entry: &Waiting) -> Result<(), AllocError>
    ensures { IfOk result (λ _. AddsLines text.old (list_row entry.now ∷ []) text.new) }
{
    let Waiting {
        position,
        child,
        class,
        metres,
    } = *entry;
    let child = child.get();
    writeln!(text, "{position:>5}{child:>9}{class:>4}{metres:>9}")
}

#[tactic(auto, unfolding(crate::specs::Lists::list_foot))]
fn put_foot(text: &mut String, waiting: usize, vacancies: u32) -> Result<(), AllocError>
    ensures { IfOk result (λ _. AddsLines text.old (list_foot waiting vacancies ∷ []) text.new) }
{
    writeln!(text, "Waiting {waiting}, vacancies {vacancies}")
}
