// What running the body of a request answers, and its text.
ghost use Rattle.std.specs.Prelude.{◌≡◌, IfOk, string_bytes};
ghost use Rattle.adm_http.specs.Replies.{row_fault_text, named_row_text};

use adm_csv::{Fault, RowFault};
use adm_desk::LineAnswer;
use adm_wire::memory_text;
use std::alloc::{AllocError, Global};

/// What running a body answers.
#[derive(Clone, Copy)]
pub enum BodyAnswer {
    /// The answer to a command or to a question; an import is a command.
    Line(LineAnswer),
    /// The body has no rows for an import.
    Unread(RowFault),
}

impl BodyAnswer {
    ghost use Rattle.adm_http.specs.Replies.{body_text};

    /// The text of the answer.
    pub(crate) fn text(&self, alloc: Global) -> Result<String, AllocError>
        ensures { IfOk result (λ text. string_bytes text ≡ body_text self.now) }
    {
        match self {
            BodyAnswer::Line(answer) => answer.text(alloc),
            BodyAnswer::Unread(fault) => row_fault_text(alloc, fault.fault, fault.row),
        }
    }
}

// The text of an error of the row of this number.
fn row_fault_text(alloc: Global, fault: Fault, row: u64) -> Result<String, AllocError>
    ensures { IfOk result (λ text. string_bytes text ≡ row_fault_text fault row) }
{
    match fault {
        Fault::Header => named_row_text(alloc, 1, "Header", row),
        Fault::FieldCount => named_row_text(alloc, 2, "FieldCount", row),
        Fault::BadNumber => named_row_text(alloc, 3, "BadNumber", row),
        Fault::BadDate => named_row_text(alloc, 4, "BadDate", row),
        Fault::BadText => named_row_text(alloc, 5, "BadText", row),
        Fault::TooManyRows => named_row_text(alloc, 6, "TooManyRows", row),
        Fault::Read => named_row_text(alloc, 7, "Read", row),
        Fault::Memory => String::from_str(alloc, memory_text()),
    }
}

fn named_row_text(alloc: Global, number: u8, name: &str, row: u64) -> Result<String, AllocError>
    ensures { IfOk result (λ text. string_bytes text ≡ named_row_text number name.now row) }
{
    format!(in alloc; "{{\"fault\":{number},\"name\":\"{name}\",\"row\":{row}}}")
}
