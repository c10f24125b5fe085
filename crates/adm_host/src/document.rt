// What can be printed of a register, and how a text is written.
ghost use Rattle.std.specs.Prelude.{◌≡◌, IfOk, option_map, string_bytes};
ghost use Rattle.std.specs.FinMap as map;
ghost use Rattle.adm_wire.specs.Streams.{writer};
ghost use Rattle.adm_host.specs.Texts.{Puts, PrintsAs, Says, text_or, line_of, register_line, draw_line, document_text};
ghost use Rattle.adm_host.specs.declared.fault.Fault.TheVariants.{NoDraw};

use crate::exit::Exit;
use crate::fault::Fault;
use adm_letters::{letter, list_text, pairs_text, round_text};
use adm_register::Register;
use adm_types::{ChildNo, SchoolCode};
use adm_view::{draw_text, register_text};
use adm_wire::Output;
use std::alloc::{AllocError, Global};

/// What can be printed of a register.
#[derive(Clone, Copy)]
pub enum Document {
    /// The letter to a child.
    Letter(ChildNo),
    /// The waiting list of a school.
    List(SchoolCode),
    /// The report of the round of a number.
    Report(u32),
    /// For whom lots are drawn: for the next round, or for a fill at a school.
    Pairs(Option<SchoolCode>),
    /// The register as JSON, without its lots.
    Register,
    /// The draw of a number as JSON, with its lots, its cutoffs and its refusals.
    Draw(u32),
}

impl Document {
    /// Prints its text, over the register. The `Err` is why there is none, out of memory, or Write.
    pub fn print<O: Output>(
        self,
        alloc: Global,
        register: &Register,
        output: &mut O,
    ) -> Result<Exit, Fault>
        ensures { PrintsAs (document_text register.now self)
            (writer O.Output output.old output.new) result }
    {
        let text = self.text(alloc, register)?;
        put(output, text.as_str())?;
        Ok(Exit::Done)
    }

    /// Its text, over the register. The `Err` is why there is none, or out of memory.
    fn text(self, alloc: Global, register: &Register) -> Result<String, Fault>
        ensures { Says (document_text register.now self) result }
    {
        match self {
            Document::Letter(child) => Ok(letter(alloc, register, child)?),
            Document::List(school) => Ok(list_text(alloc, register, school)?),
            Document::Report(round) => Ok(round_text(alloc, register, round)?),
            Document::Pairs(school) => Ok(pairs_text(alloc, register, school)?),
            Document::Register => Ok(register_line(alloc, register)?),
            Document::Draw(number) => draw_line(alloc, register, number),
        }
    }
}

/// The register as a line of JSON.
#[tactic(auto, unfolding(crate::specs::Texts::register_line))]
fn register_line(alloc: Global, register: &Register) -> Result<String, AllocError>
    ensures { IfOk result (λ line. string_bytes line ≡ register_line register.now) }
{
    line_of(register_text(alloc, register)?)
}

/// The draw of a number as a line of JSON. The `Err` is NoDraw, or out of memory.
#[tactic(auto, unfolding(crate::specs::Texts::draw_line))]
fn draw_line(alloc: Global, register: &Register, number: u32) -> Result<String, Fault>
    ensures { Says (text_or NoDraw (option_map (draw_line register.now) (map.get register.now.draws number))) result }
{
    Ok(line_of(draw_text(alloc, register, number)?)?)
}

/// A text as a line, which ends with LF.
fn line_of(text: String) -> Result<String, AllocError>
    ensures { IfOk result (λ line. string_bytes line ≡ line_of (string_bytes text)) }
{
    let mut line = text;
    line.push_str("\n")?;
    Ok(line)
}

/// Writes a text. The `Err` is Write.
pub fn put<O: Output>(output: &mut O, text: &str) -> Result<(), Fault>
    ensures { Puts text.now (writer O.Output output.old output.new) result }
{
    match output.put(text.as_bytes()) {
        Ok(()) => Ok(()),
        Err(_) => Err(Fault::Write),
    }
}
