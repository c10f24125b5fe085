// The kinds of a field: what its text says, or the error of the kind.
ghost use Rattle.std.specs.Prelude.{◌≡◌, Option, List, ℕ, Result, IfOk, map, option_map};
ghost use Rattle.adm_types.specs.Joined.{pieces, all_some};
ghost use Rattle.adm_csv.specs.Kinds as kinds;
ghost use Rattle.adm_csv.specs.Kinds.{truth_of, flag_named, flags_of};
ghost use Rattle.adm_csv.specs.Reading.{Gives, some_or};
ghost use Rattle.adm_csv.specs.declared.fault.Fault.{Fault};
ghost use Rattle.adm_csv.specs.declared.fault.Fault.TheVariants.{BadNumber};

use crate::Fault;
use adm_types::{ChildNo, Day, Flag, SchoolCode, Seq, Text, codes, flag_bits, plain};
use std::alloc::{AllocError, Global};

/// A kind of field. No text is a field that is none, or no UTF-8.
pub(crate) trait CsvKind: Drop {
    // What the text of a field says, or the error of the kind.
    ghost says: { Option (List ℕ) → Result Self Fault };

    fn read(alloc: Global, text: Option<&str>) -> Result<Self, Fault>
        ensures { Gives result (says (option_map (λ s. s.now) text.entry)) };
}

impl CsvKind for u32 {
    ghost says = { kinds.a_number };

    fn read(_alloc: Global, text: Option<&str>) -> Result<u32, Fault> {
        text.and_then(|text| plain(text)).ok_or(Fault::BadNumber)
    }
}

impl CsvKind for ChildNo {
    ghost says = { kinds.a_child };

    fn read(_alloc: Global, text: Option<&str>) -> Result<ChildNo, Fault> {
        let number = text.and_then(|text| plain(text)).and_then(ChildNo::new);
        number.ok_or(Fault::BadNumber)
    }
}

impl CsvKind for Text {
    ghost says = { kinds.a_text };

    fn read(alloc: Global, text: Option<&str>) -> Result<Text, Fault> {
        let text = text.ok_or(Fault::BadText)?;
        Ok(Text::from_string(String::from_str(alloc, text)?))
    }
}

impl CsvKind for bool {
    ghost says = { kinds.a_truth };

    fn read(_alloc: Global, text: Option<&str>) -> Result<bool, Fault> {
        text.and_then(truth_of).ok_or(Fault::BadText)
    }
}

impl CsvKind for Day {
    ghost says = { kinds.a_day };

    fn read(_alloc: Global, text: Option<&str>) -> Result<Day, Fault> {
        text.and_then(Day::parse).ok_or(Fault::BadDate)
    }
}

impl CsvKind for Seq<SchoolCode> {
    ghost says = { kinds.some_codes };

    fn read(alloc: Global, text: Option<&str>) -> Result<Seq<SchoolCode>, Fault> {
        let text = text.ok_or(Fault::BadText)?;
        codes(alloc, text)?.ok_or(Fault::BadText)
    }
}

/// A code, or the empty text for no school.
impl CsvKind for Option<SchoolCode> {
    ghost says = { kinds.a_code_or_none };

    fn read(_alloc: Global, text: Option<&str>) -> Result<Option<SchoolCode>, Fault> {
        text.and_then(SchoolCode::or_none).ok_or(Fault::BadText)
    }
}

/// Flags, as the bits of a number.
impl CsvKind for u16 {
    ghost says = { kinds.some_flags };

    fn read(alloc: Global, text: Option<&str>) -> Result<u16, Fault> {
        let text = text.ok_or(Fault::BadNumber)?;
        let flags = flags(alloc, text)?;
        Ok(flag_bits(flags.as_slice()))
    }
}

fn truth_of(text: &str) -> Option<bool>
    ensures { result ≡ truth_of text.now }
{
    if text == "yes" {
        Some(true)
    } else if text == "no" {
        Some(false)
    } else {
        None
    }
}

/// The flags that a text writes, with `;` between each two; the empty text writes none.
fn flags(alloc: Global, text: &str) -> Result<Seq<Flag>, Fault>
    ensures { Gives result (some_or BadNumber (flags_of text.now)) }
{
    if text.is_empty() {
        return Ok(Seq::new(alloc));
    }
    each_flag(alloc, flag_pieces(alloc, text)?.as_slice())
}

fn flag_named(text: &str) -> Option<Flag>
    ensures { result ≡ flag_named text.now }
{
    plain(text).and_then(Flag::new)
}

fn flag_pieces(alloc: Global, text: &str) -> Result<Vec<Option<Flag>>, AllocError>
    ensures { IfOk result (λ flags. flags.items ≡ map flag_named (pieces text.now)) }
{
    text.split(';')
        .map(|piece| flag_named(piece))
        .collect(alloc)
}

/// Each flag, where none is missing.
fn each_flag(alloc: Global, pieces: &[Option<Flag>]) -> Result<Seq<Flag>, Fault>
    ensures { Gives result (some_or BadNumber (all_some pieces.now)) }
{
    let mut flags = Vec::new(alloc);
    for piece in pieces {
        flags.push(piece.ok_or(Fault::BadNumber)?)?;
    }
    Ok(Seq::from_vec(flags))
}
