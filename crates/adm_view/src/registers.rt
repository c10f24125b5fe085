// The texts: of a register as one document, and of a draw with its lots.
ghost use Rattle.std.specs.Prelude.{◌≡◌, Some, IfOk, option_map, string_bytes};
ghost use Rattle.std.specs.FinMap as rows;
ghost use Rattle.serde_json.specs.Read.{read};
ghost use Rattle.serde_json.specs.Written.{compact_text};
ghost use Rattle.serde_json.specs.View.{view};
ghost use Rattle.adm_view.specs.Draws.{draw_data_with_lots};
ghost use Rattle.adm_view.specs.Register.{register_data};
ghost use Rattle.adm_view.specs.Answers.{GivesText, ReadsBack};

use crate::ViewFault;
use crate::children::children;
use crate::draws::{draw_with_lots, draws};
use crate::schools::schools;
use crate::season::season;
use crate::waits::waits;
use adm_register::Register;
use adm_types::Draw;
use serde_json::{Value, json};
use std::alloc::{AllocError, Global};

/// Everything of the register but its lots and its imported rows, as one JSON document without
/// spaces, whose keys are in alphabetical order: its children by their numbers with their
/// applications, places and the schools that they left, its draws by their numbers, its schools by
/// their codes, and its season. Distances are in metres, days are YYYY-MM-DD.
///
/// It takes memory for the document as a tree and as a text. What it costs grows with the text, with
/// the schools times the applications, and with those that wait, times their logarithm. The `Err`
/// means out of memory.
pub fn register_text(alloc: Global, register: &Register) -> Result<String, AllocError>
    ensures text { IfOk result (λ text. string_bytes text ≡ compact_text (register_data register.now)) }
    ensures reads_back { IfOk result (λ text. read (string_bytes text) ≡ Some (register_data register.now)) }
{
    document(alloc, register)?.to_string(alloc)
}

/// The draw of this number with its lots, in the order in which they are stored, as a JSON object
/// without spaces, whose keys are in alphabetical order. Beside them it has the cutoff of each school
/// that took in a child, and each refusal with what decided it, by the data that the register has
/// now. It takes memory for the object as a tree and as a text; what it costs grows with the outcomes
/// and the lots, times the logarithm of the outcomes.
///
/// Where it is an error, there is no such draw (`NoDraw`), or memory ran out.
pub fn draw_text(alloc: Global, register: &Register, number: u32) -> Result<String, ViewFault>
    ensures text { GivesText (option_map (draw_data_with_lots register.now) (rows.get register.now.draws number)) result }
    ensures reads_back { ReadsBack (option_map (draw_data_with_lots register.now) (rows.get register.now.draws number)) result }
{
    match register.tables().draw(number) {
        None => Err(ViewFault::NoDraw),
        Some(draw) => Ok(known_draw_text(alloc, register, draw)?),
    }
}

fn known_draw_text(alloc: Global, register: &Register, draw: &Draw) -> Result<String, AllocError>
    ensures text { IfOk result (λ text. string_bytes text ≡ compact_text (draw_data_with_lots register.now draw.now)) }
    ensures reads_back { IfOk result (λ text. read (string_bytes text) ≡ Some (draw_data_with_lots register.now draw.now)) }
{
    draw_with_lots(alloc, register, draw)?.to_string(alloc)
}

fn document(alloc: Global, register: &Register) -> Result<Value, AllocError>
    ensures { IfOk result (λ made. view made ≡ register_data register.now) }
{
    let waits = waits(alloc, register)?;
    let children = children(alloc, register, &waits)?;
    let draws = draws(alloc, register)?;
    let schools = schools(alloc, register, &waits)?;
    let season = season(alloc, register.season())?;
    json!(in alloc; {"children": children, "draws": draws, "schools": schools, "season": season})
}
