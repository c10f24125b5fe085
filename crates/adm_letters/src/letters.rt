// The letter to a child.
ghost use Rattle.std.specs.Prelude.{◌≡◌, IfOk, [], ◌∷◌, map, string_bytes};
ghost use Rattle.adm_register.specs.Rows.{place_of};
ghost use Rattle.adm_letters.specs.Answers.{GivesText};
ghost use Rattle.adm_letters.specs.declared.fault.LetterFault.TheVariants.{UnknownChild};
ghost use Rattle.adm_letters.specs.Lines.{AddsLines, lines_text};
ghost use Rattle.adm_days.specs.Days.{day_text};
ghost use Rattle.adm_letters.specs.LetterLines.{head_line, child_line, phase_text, reminded_line, withdrawal_line};
ghost use Rattle.adm_letters.specs.Letters.{offer_lines, place_lines, school_name, lines_of_place, wait_line, lines_of_waits, letter_lines, letter_text};

use crate::LetterFault;
use crate::letter_lines::{
    accepted_line, child_line, head_line, no_place, offered_line, phase_text, plan_line,
    reminded_line, waiting_line, waits_nowhere, withdrawal_line,
};
use adm_days::day_text;
use adm_register::{Register, Standing};
use adm_types::{Child, ChildNo, Day, PlaceState, SchoolCode, Season};
use std::alloc::{AllocError, Global};

/// The letter to the child of this number: its place, and where it waits at which position. It takes
/// memory for the text, for a pointer to each application that lists a school that the child wants,
/// and for each child that waits there; what it costs grows with the applications, which are gone
/// through once for all schools, and with those that list one of them.
///
/// Where it is an error, there is no such child (`UnknownChild`), or memory ran out.
pub fn letter(alloc: Global, register: &Register, child: ChildNo) -> Result<String, LetterFault>
    ensures { GivesText (letter_text register.now child) UnknownChild result }
{
    match register.child(child) {
        Some(found) => Ok(letter_to(alloc, register, found)?),
        None => Err(LetterFault::UnknownChild),
    }
}

fn letter_to(alloc: Global, register: &Register, child: &Child) -> Result<String, AllocError>
    ensures { IfOk result (λ text. string_bytes text ≡ lines_text (letter_lines register.now child.now)) }
{
    let waits = register.standings(alloc, child.no)?;
    let mut text = String::new(alloc);
    put_head(&mut text, register.season())?;
    put_child(&mut text, child)?;
    put_place_of(&mut text, register, child.no)?;
    put_waits(&mut text, register, &waits)?;
    Ok(text)
}

fn put_head(text: &mut String, season: &Season) -> Result<(), AllocError>
    ensures { IfOk result (λ _. AddsLines text.old (head_line season.now.year (phase_text season.now.phase) ∷ []) text.new) }
{
    head_line(text, season.year(), phase_text(season.phase()))
}

fn put_child(text: &mut String, child: &Child) -> Result<(), AllocError>
    ensures { IfOk result (λ _. AddsLines text.old (child_line child.now.no child.now.name ∷ []) text.new) }
{
    child_line(text, child.no.get(), child.name.as_str())
}

fn put_offer(
    text: &mut String,
    code: &str,
    name: &str,
    day: Day,
    reminded: Option<Day>,
) -> Result<(), AllocError>
    ensures { IfOk result (λ _. AddsLines text.old (offer_lines code.now name.now day reminded) text.new) }
{
    let day = day_text(day);
    match reminded {
        None => offered_line(text, code, name, day.as_str()),
        Some(reminded) => put_reminded(text, code, name, day.as_str(), reminded),
    }
}

fn put_reminded(
    text: &mut String,
    code: &str,
    name: &str,
    day: &str,
    reminded: Day,
) -> Result<(), AllocError>
    ensures { IfOk result (λ _. AddsLines text.old (reminded_line code.now name.now day.now (day_text reminded) ∷ withdrawal_line (day_text reminded) ∷ []) text.new) }
{
    let reminded = day_text(reminded);
    reminded_line(text, code, name, day, reminded.as_str())?;
    withdrawal_line(text, reminded.as_str())
}

fn put_place(text: &mut String, code: &str, name: &str, state: PlaceState) -> Result<(), AllocError>
    ensures { IfOk result (λ _. AddsLines text.old (place_lines code.now name.now state) text.new) }
{
    match state {
        PlaceState::Offered { day, reminded } => put_offer(text, code, name, day, reminded),
        PlaceState::Accepted => accepted_line(text, code, name),
        PlaceState::Plan => plan_line(text, code, name),
    }
}

/// The name of the school, which is there wherever a child has a place or wants one.
fn school_name(register: &Register, school: SchoolCode) -> &str
    ensures { result.now ≡ school_name register.now school }
{
    match register.school(school) {
        Some(found) => found.name.as_str(),
        None => "",
    }
}

fn put_place_of(text: &mut String, register: &Register, child: ChildNo) -> Result<(), AllocError>
    ensures { IfOk result (λ _. AddsLines text.old (lines_of_place register.now (place_of register.now child)) text.new) }
{
    match register.place(child) {
        None => no_place(text),
        Some(place) => put_place(
            text,
            place.school.as_str(),
            school_name(register, place.school),
            place.state,
        ),
    }
}

fn put_waits(
    text: &mut String,
    register: &Register,
    waits: &[(SchoolCode, Standing)],
) -> Result<(), AllocError>
    ensures { IfOk result (λ _. AddsLines text.old (lines_of_waits register.now waits.now) text.new) }
{
    match waits {
        [] => waits_nowhere(text),
        _ => put_each_wait(text, register, waits),
    }
}

fn put_each_wait(
    text: &mut String,
    register: &Register,
    waits: &[(SchoolCode, Standing)],
) -> Result<(), AllocError>
    ensures { IfOk result (λ _. AddsLines text.old (map (wait_line register.now) waits.now) text.new) }
{
    for wait in waits {
        put_wait(text, register, wait)?;
    }
    Ok(())
}

fn put_wait(
    text: &mut String,
    register: &Register,
    wait: &(SchoolCode, Standing),
) -> Result<(), AllocError>
    ensures { IfOk result (λ _. AddsLines text.old (wait_line register.now wait.now ∷ []) text.new) }
{
    waiting_line(
        text,
        wait.0.as_str(),
        school_name(register, wait.0),
        wait.1.entry,
        wait.1.many,
    )
}
