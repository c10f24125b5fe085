// The texts of answers: compact JSON, to the byte.
ghost use Rattle.std.specs.Prelude.{◌≡◌, IfOk, string_bytes};
ghost use Rattle.adm_wire.specs.Texts.{reply_text, round_reply_text, filled_text, imported_text, named_text, row_text, refusal_text, fault_text, memory_text, failed_text, name_of_refusal};

use crate::WireFault;
use adm_types::{ChildNo, Refusal, Reply};
use std::alloc::{AllocError, Global};

/// The text of a reply, without LF. The `Err` means out of memory.
pub fn reply_text(alloc: Global, reply: &Reply) -> Result<String, AllocError>
    ensures { IfOk result (λ s. string_bytes s ≡ reply_text reply.now) }
{
    match *reply {
        Reply::Done => String::from_str(alloc, "{\"done\":true}"),
        Reply::Round {
            round,
            offers,
            kept,
            unplaced,
        } => round_reply_text(alloc, round, offers, kept, unplaced),
        Reply::Filled(child) => filled_text(alloc, child),
        Reply::Imported { added, known } => imported_text(alloc, added, known),
    }
}

fn round_reply_text(
    alloc: Global,
    round: u32,
    offers: u32,
    kept: u32,
    unplaced: u32,
) -> Result<String, AllocError>
    ensures { IfOk result (λ s. string_bytes s ≡ round_reply_text round offers kept unplaced) }
{
    format!(in alloc;
        "{{\"done\":true,\"kept\":{kept},\"offers\":{offers},\"round\":{round},\"unplaced\":{unplaced}}}"
    )
}

fn filled_text(alloc: Global, child: ChildNo) -> Result<String, AllocError>
    ensures { IfOk result (λ s. string_bytes s ≡ filled_text child) }
{
    let number = child.get();
    format!(in alloc; "{{\"child\":{number},\"done\":true}}")
}

fn imported_text(alloc: Global, added: u64, known: u64) -> Result<String, AllocError>
    ensures { IfOk result (λ s. string_bytes s ≡ imported_text added known) }
{
    format!(in alloc; "{{\"added\":{added},\"done\":true,\"known\":{known}}}")
}

/// The text of a refusal, without LF, with the row of an import that was refused, or without a row
/// where it is 0. The `Err` means out of memory.
pub fn refusal_text(alloc: Global, refusal: Refusal, row: u64) -> Result<String, AllocError>
    ensures { IfOk result (λ s. string_bytes s ≡ refusal_text refusal row) }
{
    let name = refusal_name(refusal);
    let number = refusal as u8;
    if row == 0 {
        named_text(alloc, name, number)
    } else {
        row_text(alloc, name, number, row)
    }
}

fn named_text(alloc: Global, name: &str, number: u8) -> Result<String, AllocError>
    ensures { IfOk result (λ s. string_bytes s ≡ named_text name.now number) }
{
    format!(in alloc; "{{\"name\":\"{name}\",\"refused\":{number}}}")
}

fn row_text(alloc: Global, name: &str, number: u8, row: u64) -> Result<String, AllocError>
    ensures { IfOk result (λ s. string_bytes s ≡ row_text name.now number row) }
{
    format!(in alloc; "{{\"name\":\"{name}\",\"refused\":{number},\"row\":{row}}}")
}

/// The text of an error, without LF. The `Err` means out of memory.
pub fn fault_text(alloc: Global, fault: WireFault) -> Result<String, AllocError>
    ensures { IfOk result (λ s. string_bytes s ≡ fault_text fault) }
{
    let text = match fault {
        WireFault::NotJson => "{\"fault\":1,\"name\":\"NotJson\"}",
        WireFault::UnknownCommand => "{\"fault\":2,\"name\":\"UnknownCommand\"}",
        WireFault::MissingField => "{\"fault\":3,\"name\":\"MissingField\"}",
        WireFault::WrongKind => "{\"fault\":4,\"name\":\"WrongKind\"}",
        WireFault::ExtraField => "{\"fault\":5,\"name\":\"ExtraField\"}",
        WireFault::Memory => memory_text(),
    };
    String::from_str(alloc, text)
}

/// The text of an answer that was not made because memory ran out, without LF. It takes no memory.
pub fn memory_text() -> &'static str
    ensures { result.now ≡ memory_text }
{
    "{\"memory\":true}"
}

/// The text of the answer to a command of a desk that had failed, without LF. It takes no memory.
pub fn failed_text() -> &'static str
    ensures { result.now ≡ failed_text }
{
    "{\"failed\":true}"
}

fn refusal_name(refusal: Refusal) -> &'static str
    ensures { result.now ≡ name_of_refusal refusal }
{
    match refusal {
        Refusal::UnknownSchool => "UnknownSchool",
        Refusal::UnknownChild => "UnknownChild",
        Refusal::SchoolKnown => "SchoolKnown",
        Refusal::ChildKnown => "ChildKnown",
        Refusal::BadText => "BadText",
        Refusal::OutOfRange => "OutOfRange",
        Refusal::RegisterFull => "RegisterFull",
        Refusal::BadPreferences => "BadPreferences",
        Refusal::HasPlan => "HasPlan",
        Refusal::AlreadyApplied => "AlreadyApplied",
        Refusal::TooSoon => "TooSoon",
        Refusal::WrongDraw => "WrongDraw",
        Refusal::LotCount => "LotCount",
        Refusal::LotsRepeated => "LotsRepeated",
        Refusal::NotOffered => "NotOffered",
        Refusal::NotWaiting => "NotWaiting",
        Refusal::NoVacancy => "NoVacancy",
        Refusal::EmptyList => "EmptyList",
        Refusal::ListClosed => "ListClosed",
        Refusal::RowDiffers => "RowDiffers",
        Refusal::AlreadyReminded => "AlreadyReminded",
        Refusal::NotReminded => "NotReminded",
    }
}
