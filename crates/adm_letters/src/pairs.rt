// For whom lots are drawn.
ghost use Rattle.std.specs.Prelude.{◌≡◌, IfOk, [], ◌∷◌, map, string_bytes};
ghost use Rattle.adm_commands.specs.Commands.Round.{round_pairs};
ghost use Rattle.adm_commands.specs.Commands.Fill.{fill_pairs};
ghost use Rattle.adm_letters.specs.Answers.{GivesText};
ghost use Rattle.adm_letters.specs.declared.fault.LetterFault.TheVariants.{UnknownSchool};
ghost use Rattle.adm_letters.specs.Lines.{AddsLines, lines_text};
ghost use Rattle.adm_letters.specs.Pairs.{pair_line, pair_text, pairs_text};

use crate::LetterFault;
use adm_commands::{fill_pairs, round_pairs};
use adm_register::Register;
use adm_round::Pair;
use adm_types::SchoolCode;
use std::alloc::{AllocError, Global};
use std::fmt::Write;

/// For whom lots are drawn, a line for each pair of a school and a child, in the order of their
/// lots: without a school those of the next round, by the schools' codes and then by the children's
/// numbers; with one those of a fill there, who wait at it, by the children's numbers. Where there
/// are none the text is empty. A fill's pairs are given whether or not a fill would be refused now:
/// a vacancy and the day are the command's affair.
///
/// It takes memory for the pairs and for the text. What a round's cost grows with the list entries
/// of those who take part, times their logarithm, with the applications and the places, and with
/// the schools times the places of plans; a fill's with the applications.
///
/// Where it is an error, there is no such school (`UnknownSchool`), or memory ran out.
pub fn pairs_text(
    alloc: Global,
    register: &Register,
    school: Option<SchoolCode>,
) -> Result<String, LetterFault>
    ensures { GivesText (pairs_text register.now school) UnknownSchool result }
{
    match school {
        None => Ok(of_round(alloc, register)?),
        Some(code) => match register.school(code) {
            Some(_) => Ok(of_fill(alloc, register, code)?),
            None => Err(LetterFault::UnknownSchool),
        },
    }
}

/// For whom lots are drawn in the next round.
fn of_round(alloc: Global, register: &Register) -> Result<String, AllocError>
    ensures { IfOk result (λ text. string_bytes text ≡ lines_text (map pair_text (round_pairs register.now))) }
{
    let pairs = round_pairs(register, alloc)?;
    list(alloc, &pairs)
}

/// For whom lots are drawn in a fill at the school.
fn of_fill(alloc: Global, register: &Register, school: SchoolCode) -> Result<String, AllocError>
    ensures { IfOk result (λ text. string_bytes text ≡ lines_text (map pair_text (fill_pairs register.now school))) }
{
    let pairs = fill_pairs(register, alloc, school)?;
    list(alloc, &pairs)
}

fn list(alloc: Global, pairs: &[Pair]) -> Result<String, AllocError>
    ensures { IfOk result (λ text. string_bytes text ≡ lines_text (map pair_text pairs.now)) }
{
    let mut text = String::new(alloc);
    put_pairs(&mut text, pairs)?;
    Ok(text)
}

fn put_pairs(text: &mut String, pairs: &[Pair]) -> Result<(), AllocError>
    ensures { IfOk result (λ _. AddsLines text.old (map pair_text pairs.now) text.new) }
{
    for pair in pairs {
        put_pair(text, pair)?;
    }
    Ok(())
}

fn put_pair(text: &mut String, pair: &Pair) -> Result<(), AllocError>
    ensures { IfOk result (λ _. AddsLines text.old (pair_text pair.now ∷ []) text.new) }
{
    pair_line(text, pair.school.as_str(), pair.child.get())
}

#[tactic(auto, unfolding(crate::specs::Pairs::pair_line))]
fn pair_line(text: &mut String, code: &str, child: u32) -> Result<(), AllocError>
    ensures { IfOk result (λ _. AddsLines text.old (pair_line code.now child ∷ []) text.new) }
{
    writeln!(text, "{code} {child}")
}
