// The state of a child: its place, and where it waits, as JSON.
ghost use Rattle.std.specs.Prelude.{◌≡◌, ◌++◌, IfOk, string_bytes};
ghost use Rattle.std.specs.List.{flat_map};
ghost use Rattle.adm_letters.specs.Answers.{GivesText};
ghost use Rattle.adm_letters.specs.declared.fault.LetterFault.TheVariants.{UnknownChild};
ghost use Rattle.adm_http.specs.States.{Adds, kind_of, held_json, place_json, wait_json, waits_json, after_comma, head_json, child_json, child_text};

use adm_letters::LetterFault;
use adm_register::{Register, Standing};
use adm_types::{ChildNo, Place, PlaceState, SchoolCode};
use std::alloc::{AllocError, Global};
use std::fmt::Write;

/// The state of the child of this number. It takes memory for the text, for a pointer to each
/// application that lists a school that the child wants, and for each child that waits there. What it
/// costs grows with the applications.
///
/// Where it is an error, there is no such child (`UnknownChild`), or memory ran out.
pub(crate) fn child_text(
    alloc: Global,
    register: &Register,
    child: ChildNo,
) -> Result<String, LetterFault>
    ensures { GivesText (child_text register.now child) UnknownChild result }
{
    match register.child(child) {
        Some(_) => Ok(known_child_text(alloc, register, child)?),
        None => Err(LetterFault::UnknownChild),
    }
}

fn known_child_text(
    alloc: Global,
    register: &Register,
    child: ChildNo,
) -> Result<String, AllocError>
    ensures { IfOk result (λ text. string_bytes text ≡ child_json register.now child) }
{
    let waits = register.standings(alloc, child)?;
    let mut text = String::new(alloc);
    put_head(&mut text, child)?;
    put_place(&mut text, register.place(child))?;
    text.push_str(",\"waiting\":[")?;
    put_waits(&mut text, &waits)?;
    text.push_str("]}")?;
    Ok(text)
}

fn put_head(text: &mut String, child: ChildNo) -> Result<(), AllocError>
    ensures { IfOk result (λ _. Adds text.old (head_json child) text.new) }
{
    let number = child.get();
    write!(text, "{{\"child\":{number},\"place\":")
}

fn put_place(text: &mut String, place: Option<Place>) -> Result<(), AllocError>
    ensures { IfOk result (λ _. Adds text.old (place_json place) text.new) }
{
    match place {
        None => text.push_str("null"),
        Some(place) => put_held(text, kind(place.state), place.school.as_str()),
    }
}

fn put_held(text: &mut String, kind: &str, school: &str) -> Result<(), AllocError>
    ensures { IfOk result (λ _. Adds text.old (held_json kind.now school.now) text.new) }
{
    write!(text, "{{\"kind\":\"{kind}\",\"school\":\"{school}\"}}")
}

// The state of a place, by its name.
fn kind(state: PlaceState) -> &'static str
    ensures { result.now ≡ kind_of state }
{
    match state {
        PlaceState::Offered { .. } => "offered",
        PlaceState::Accepted => "accepted",
        PlaceState::Plan => "plan",
    }
}

// The schools at which the child waits, with a comma between each two.
fn put_waits(text: &mut String, waits: &[(SchoolCode, Standing)]) -> Result<(), AllocError>
    ensures { IfOk result (λ _. Adds text.old (waits_json waits.now) text.new) }
{
    let Some((first, others)) = waits.split_first() else {
        return Ok(());
    };
    put_wait(text, "", first)?;
    put_others(text, others)
}

// Each of them after a comma.
fn put_others(text: &mut String, others: &[(SchoolCode, Standing)]) -> Result<(), AllocError>
    ensures { IfOk result (λ _. Adds text.old (flat_map after_comma others.now) text.new) }
{
    for wait in others {
        put_wait(text, ",", wait)?;
    }
    Ok(())
}

fn put_wait(
    text: &mut String,
    before: &str,
    wait: &(SchoolCode, Standing),
) -> Result<(), AllocError>
    ensures { IfOk result (λ _. Adds text.old (before.now ++ wait_json wait.now) text.new) }
{
    let school = wait.0.as_str();
    let position = wait.1.entry.position;
    write!(
        text,
        "{before}{{\"position\":{position},\"school\":\"{school}\"}}"
    )
}
