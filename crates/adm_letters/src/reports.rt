// The report of a round.
ghost use Rattle.std.specs.Prelude.{◌≡◌, IfOk, [], ◌∷◌, map, string_bytes};
ghost use Rattle.adm_letters.specs.Answers.{GivesText};
ghost use Rattle.adm_letters.specs.declared.fault.LetterFault.TheVariants.{NoRound};
ghost use Rattle.adm_letters.specs.Lines.{AddsLines, lines_text};
ghost use Rattle.adm_days.specs.Days.{day_text};
ghost use Rattle.adm_letters.specs.Reports.{report_head, outcome_line, outcome_text, report_foot, report_counts, report_lines, round_text};

use crate::LetterFault;
use adm_days::day_text;
use adm_register::Register;
use adm_round::{Totals, counts};
use adm_types::{Draw, Outcome, SchoolCode};
use std::alloc::{AllocError, Global};
use std::fmt::Write;

/// The report of the round of this number, from 1: which school each of its children was allotted,
/// by the numbers of the children, and how many were offered a school, keep one and have none. It
/// takes memory for the text; what it costs grows with the draws and with the round's children.
///
/// Where it is an error, there was no such round (`NoRound`), or memory ran out.
pub fn round_text(alloc: Global, register: &Register, number: u32) -> Result<String, LetterFault>
    ensures { GivesText (round_text register.now number) NoRound result }
{
    match register.round(number) {
        Some(draw) => Ok(report(alloc, draw)?),
        None => Err(LetterFault::NoRound),
    }
}

/// The report of the round of this draw.
fn report(alloc: Global, draw: &Draw) -> Result<String, AllocError>
    ensures { IfOk result (λ text. string_bytes text ≡ lines_text (report_lines draw.now)) }
{
    let mut text = String::new(alloc);
    put_head(&mut text, draw)?;
    let outcomes = draw.outcomes.as_slice();
    put_outcomes(&mut text, outcomes)?;
    put_foot(&mut text, outcomes)?;
    Ok(text)
}

fn put_head(text: &mut String, draw: &Draw) -> Result<(), AllocError>
    ensures { IfOk result (λ _. AddsLines text.old (report_head draw.now.round draw.now.number (day_text draw.now.day) ∷ []) text.new) }
{
    let day = day_text(draw.day);
    head_line(text, draw.round, draw.number, day.as_str())
}

#[tactic(auto, unfolding(crate::specs::Reports::report_head))]
fn head_line(text: &mut String, round: u32, draw: u32, day: &str) -> Result<(), AllocError>
    ensures { IfOk result (λ _. AddsLines text.old (report_head round draw day.now ∷ []) text.new) }
{
    writeln!(text, "Round {round}, draw {draw}, {day}")
}

fn put_outcomes(text: &mut String, outcomes: &[Outcome]) -> Result<(), AllocError>
    ensures { IfOk result (λ _. AddsLines text.old (map outcome_text outcomes.now) text.new) }
{
    for outcome in outcomes {
        put_outcome(text, outcome)?;
    }
    Ok(())
}

fn put_outcome(text: &mut String, outcome: &Outcome) -> Result<(), AllocError>
    ensures { IfOk result (λ _. AddsLines text.old (outcome_text outcome.now ∷ []) text.new) }
{
    let Outcome {
        child,
        school,
        fresh: _,
    } = *outcome;
    match school {
        Some(code) => outcome_line(text, child.get(), code.as_str()),
        None => outcome_line(text, child.get(), "-"),
    }
}

#[tactic(auto, unfolding(crate::specs::Reports::outcome_line))]
fn outcome_line(text: &mut String, child: u32, school: &str) -> Result<(), AllocError>
    ensures { IfOk result (λ _. AddsLines text.old (outcome_line child school.now ∷ []) text.new) }
{
    writeln!(text, "{child:>9} {school}")
}

fn put_foot(text: &mut String, outcomes: &[Outcome]) -> Result<(), AllocError>
    ensures { IfOk result (λ _. AddsLines text.old (report_counts outcomes.now ∷ []) text.new) }
{
    let Totals {
        offers,
        kept,
        unplaced,
    } = counts(outcomes);
    foot_line(text, offers, kept, unplaced)
}

#[tactic(auto, unfolding(crate::specs::Reports::report_foot))]
fn foot_line(
    text: &mut String,
    offers: usize,
    kept: usize,
    unplaced: usize,
) -> Result<(), AllocError>
    ensures { IfOk result (λ _. AddsLines text.old (report_foot offers kept unplaced ∷ []) text.new) }
{
    writeln!(text, "Offers {offers}, kept {kept}, unplaced {unplaced}")
}
