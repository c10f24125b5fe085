// The lines of a letter to a child, one function each.
ghost use Rattle.std.specs.Prelude.{◌≡◌, IfOk, [], ◌∷◌};
ghost use Rattle.adm_letters.specs.Lines.{AddsLines};
ghost use Rattle.adm_letters.specs.LetterLines.{head_line, child_line, no_place, offered_line, reminded_line, accepted_line, plan_line, withdrawal_line, waiting_line, waits_nowhere, phase_text};

use adm_types::Phase;
use adm_waiting::Waiting;
use std::alloc::AllocError;
use std::fmt::Write;

pub(crate) fn phase_text(phase: Phase) -> &'static str
    ensures { result.now ≡ phase_text phase }
{
    match phase {
        Phase::Primary => "primary",
        Phase::Secondary => "secondary",
    }
}

#[tactic(auto, unfolding(crate::specs::LetterLines::head_line))]
pub(crate) fn head_line(text: &mut String, year: u32, phase: &str) -> Result<(), AllocError>
    ensures { IfOk result (λ _. AddsLines text.old (head_line year phase.now ∷ []) text.new) }
{
    writeln!(text, "Admission {year} {phase}")
}

#[tactic(auto, unfolding(crate::specs::LetterLines::child_line))]
pub(crate) fn child_line(text: &mut String, number: u32, name: &str) -> Result<(), AllocError>
    ensures { IfOk result (λ _. AddsLines text.old (child_line number name.now ∷ []) text.new) }
{
    writeln!(text, "Child {number} {name}")
}

#[tactic(auto, unfolding(crate::specs::LetterLines::no_place))]
pub(crate) fn no_place(text: &mut String) -> Result<(), AllocError>
    ensures { IfOk result (λ _. AddsLines text.old (no_place ∷ []) text.new) }
{
    writeln!(text, "Place: none")
}

#[tactic(auto, unfolding(crate::specs::LetterLines::offered_line))]
pub(crate) fn offered_line(
    text: &mut String,
    code: &str,
    name: &str,
    day: &str,
) -> Result<(), AllocError>
    ensures { IfOk result (λ _. AddsLines text.old (offered_line code.now name.now day.now ∷ []) text.new) }
{
    writeln!(text, "Place: {code} {name}, offered {day}")
}

#[tactic(auto, unfolding(crate::specs::LetterLines::reminded_line))]
pub(crate) fn reminded_line(
    text: &mut String,
    code: &str,
    name: &str,
    day: &str,
    reminded: &str,
) -> Result<(), AllocError>
    ensures { IfOk result (λ _. AddsLines text.old (reminded_line code.now name.now day.now reminded.now ∷ []) text.new) }
{
    writeln!(
        text,
        "Place: {code} {name}, offered {day}, reminded {reminded}"
    )
}

#[tactic(auto, unfolding(crate::specs::LetterLines::accepted_line))]
pub(crate) fn accepted_line(text: &mut String, code: &str, name: &str) -> Result<(), AllocError>
    ensures { IfOk result (λ _. AddsLines text.old (accepted_line code.now name.now ∷ []) text.new) }
{
    writeln!(text, "Place: {code} {name}, accepted")
}

#[tactic(auto, unfolding(crate::specs::LetterLines::plan_line))]
pub(crate) fn plan_line(text: &mut String, code: &str, name: &str) -> Result<(), AllocError>
    ensures { IfOk result (λ _. AddsLines text.old (plan_line code.now name.now ∷ []) text.new) }
{
    writeln!(text, "Place: {code} {name}, plan")
}

#[tactic(auto, unfolding(crate::specs::LetterLines::withdrawal_line))]
pub(crate) fn withdrawal_line(text: &mut String, reminded: &str) -> Result<(), AllocError>
    ensures { IfOk result (λ _. AddsLines text.old (withdrawal_line reminded.now ∷ []) text.new) }
{
    writeln!(
        text,
        "The offer may be withdrawn 14 days after {reminded} if it is not answered."
    )
}

#[tactic(auto, unfolding(crate::specs::LetterLines::waits_nowhere))]
pub(crate) fn waits_nowhere(text: &mut String) -> Result<(), AllocError>
    ensures { IfOk result (λ _. AddsLines text.old (waits_nowhere ∷ []) text.new) }
{
    writeln!(text, "Waiting: nowhere")
}

#[tactic(auto, unfolding(crate::specs::LetterLines::waiting_line))]
pub(crate) fn waiting_line(
    text: &mut String,
    code: &str,
    name: &str,
    entry: Waiting,
    waiting: usize,
) -> Result<(), AllocError>
    ensures { IfOk result (λ _. AddsLines text.old (waiting_line code.now name.now entry waiting ∷ []) text.new) }
{
    let Waiting {
        position,
        child: _,
        class,
        metres,
    } = entry;
    writeln!(
        text,
        "Waiting: {code} {name}, position {position} of {waiting}, class {class}, {metres} metres"
    )
}
