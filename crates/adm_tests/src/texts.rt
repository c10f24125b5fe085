// The texts of answers: replies, refusals and errors, to the byte.
use adm_types::{ChildNo, Refusal, Reply};
use adm_wire::{WireFault, failed_text, fault_text, memory_text, refusal_text, reply_text};
use std::test::Fail;

#[test]
fn writes_replies(rt: HostRuntime) -> Result<(), Fail> {
    let alloc = rt.alloc();
    let round = Reply::Round {
        round: 1,
        offers: 2,
        kept: 0,
        unplaced: 3,
    };
    let child = ChildNo::new(9_999_999).ok_or("a child")?;
    let imported = Reply::Imported {
        added: 18_446_744_073_709_551_615,
        known: 2,
    };
    let rows = [
        (Reply::Done, "{\"done\":true}"),
        (
            round,
            "{\"done\":true,\"kept\":0,\"offers\":2,\"round\":1,\"unplaced\":3}",
        ),
        (Reply::Filled(child), "{\"child\":9999999,\"done\":true}"),
        (
            imported,
            "{\"added\":18446744073709551615,\"done\":true,\"known\":2}",
        ),
    ];
    for (reply, text) in rows.iter() {
        assert!(rt; reply_text(alloc, reply)?.as_str() == *text);
    }
    Ok(())
}

const REFUSALS: [(Refusal, &str); 22] = [
    (
        Refusal::UnknownSchool,
        "{\"name\":\"UnknownSchool\",\"refused\":1}",
    ),
    (
        Refusal::UnknownChild,
        "{\"name\":\"UnknownChild\",\"refused\":2}",
    ),
    (
        Refusal::SchoolKnown,
        "{\"name\":\"SchoolKnown\",\"refused\":3}",
    ),
    (
        Refusal::ChildKnown,
        "{\"name\":\"ChildKnown\",\"refused\":4}",
    ),
    (Refusal::BadText, "{\"name\":\"BadText\",\"refused\":5}"),
    (
        Refusal::OutOfRange,
        "{\"name\":\"OutOfRange\",\"refused\":6}",
    ),
    (
        Refusal::RegisterFull,
        "{\"name\":\"RegisterFull\",\"refused\":7}",
    ),
    (
        Refusal::BadPreferences,
        "{\"name\":\"BadPreferences\",\"refused\":8}",
    ),
    (Refusal::HasPlan, "{\"name\":\"HasPlan\",\"refused\":9}"),
    (
        Refusal::AlreadyApplied,
        "{\"name\":\"AlreadyApplied\",\"refused\":10}",
    ),
    (Refusal::TooSoon, "{\"name\":\"TooSoon\",\"refused\":11}"),
    (
        Refusal::WrongDraw,
        "{\"name\":\"WrongDraw\",\"refused\":12}",
    ),
    (Refusal::LotCount, "{\"name\":\"LotCount\",\"refused\":13}"),
    (
        Refusal::LotsRepeated,
        "{\"name\":\"LotsRepeated\",\"refused\":14}",
    ),
    (
        Refusal::NotOffered,
        "{\"name\":\"NotOffered\",\"refused\":15}",
    ),
    (
        Refusal::NotWaiting,
        "{\"name\":\"NotWaiting\",\"refused\":16}",
    ),
    (
        Refusal::NoVacancy,
        "{\"name\":\"NoVacancy\",\"refused\":17}",
    ),
    (
        Refusal::EmptyList,
        "{\"name\":\"EmptyList\",\"refused\":18}",
    ),
    (
        Refusal::ListClosed,
        "{\"name\":\"ListClosed\",\"refused\":19}",
    ),
    (
        Refusal::RowDiffers,
        "{\"name\":\"RowDiffers\",\"refused\":20}",
    ),
    (
        Refusal::AlreadyReminded,
        "{\"name\":\"AlreadyReminded\",\"refused\":21}",
    ),
    (
        Refusal::NotReminded,
        "{\"name\":\"NotReminded\",\"refused\":22}",
    ),
];

#[test]
fn writes_refusals(rt: HostRuntime) -> Result<(), Fail> {
    let alloc = rt.alloc();
    for (refusal, text) in REFUSALS.iter() {
        assert!(rt; refusal_text(alloc, *refusal, 0)?.as_str() == *text);
    }
    let text = refusal_text(alloc, Refusal::RowDiffers, 2)?;
    assert!(rt; text.as_str() == "{\"name\":\"RowDiffers\",\"refused\":20,\"row\":2}");
    let text = refusal_text(alloc, Refusal::BadText, 1)?;
    assert!(rt; text.as_str() == "{\"name\":\"BadText\",\"refused\":5,\"row\":1}");
    Ok(())
}

#[test]
fn writes_faults(rt: HostRuntime) -> Result<(), Fail> {
    let rows = [
        (WireFault::NotJson, "{\"fault\":1,\"name\":\"NotJson\"}"),
        (
            WireFault::UnknownCommand,
            "{\"fault\":2,\"name\":\"UnknownCommand\"}",
        ),
        (
            WireFault::MissingField,
            "{\"fault\":3,\"name\":\"MissingField\"}",
        ),
        (WireFault::WrongKind, "{\"fault\":4,\"name\":\"WrongKind\"}"),
        (
            WireFault::ExtraField,
            "{\"fault\":5,\"name\":\"ExtraField\"}",
        ),
        (WireFault::Memory, "{\"memory\":true}"),
    ];
    for (fault, text) in rows.iter() {
        assert!(rt; fault_text(rt.alloc(), *fault)?.as_str() == *text);
    }
    assert!(rt; memory_text() == "{\"memory\":true}");
    assert!(rt; failed_text() == "{\"failed\":true}");
    Ok(())
}
