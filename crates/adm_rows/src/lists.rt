// Lists as texts, with `;` between each two items.
ghost use Rattle.std.specs.Prelude.{option_copied, ◌≡◌, [], ◌∷◌, ◌++◌, true, map, OnOk, IfOk, option_map, string_bytes, if◌then◌else◌};
ghost use Rattle.adm_types.specs.Criteria.{criterion_text, criterion_of};
ghost use Rattle.adm_types.specs.Joined.{pieces, all_some};
ghost use Rattle.adm_rows.specs.Forms.{days_text, criteria_text, codes_text, two_codes_text, day_of, days_of, criteria_of, cut_at_bar, two_lists_of};

use adm_types::{Criterion, Day, SchoolCode, Seq, codes, plain};
use std::alloc::{AllocError, Global};

/// Adds a piece, after a `;` where it is not the first.
fn append(text: &mut String, is_first: bool, piece: &str) -> Result<(), AllocError>
    requires { is_first ≡ true → string_bytes text.old ≡ [] }
    ensures { OnOk result (string_bytes text.new ≡ (if is_first then piece.now else string_bytes text.old ++ 59 ∷ piece.now)) }
{
    if !is_first {
        text.push(';')?;
    }
    text.push_str(piece)
}

/// Day numbers counted from 1970-01-01.
pub fn days_text(alloc: Global, days: &[Day]) -> Result<String, AllocError>
    ensures { IfOk result (λ text. string_bytes text ≡ days_text days.now) }
{
    let mut text = String::new(alloc);
    let mut is_first = true;
    'items: for day in days {
        let number = day.number();
        append(&mut text, is_first, &format!(in alloc; "{number}")?)?;
        is_first = false;
    }
    Ok(text)
}

fn append_criterion(
    alloc: Global,
    text: &mut String,
    is_first: bool,
    criterion: &Criterion,
) -> Result<(), AllocError>
    requires { is_first ≡ true → string_bytes text.old ≡ [] }
    ensures { OnOk result (string_bytes text.new ≡ (if is_first then criterion_text criterion.now else string_bytes text.old ++ 59 ∷ criterion_text criterion.now)) }
{
    append(text, is_first, &criterion.to_string(alloc)?)
}

/// Codes of schools.
pub fn codes_text(alloc: Global, codes: &[SchoolCode]) -> Result<String, AllocError>
    ensures { IfOk result (λ text. string_bytes text ≡ codes_text codes.now) }
{
    let mut text = String::new(alloc);
    let mut is_first = true;
    'items: for code in codes {
        append(&mut text, is_first, code.as_str())?;
        is_first = false;
    }
    Ok(text)
}

/// The codes of two lists as one text: where the second has any, they follow after a `|`.
pub fn two_codes_text(
    alloc: Global,
    first: &[SchoolCode],
    second: &[SchoolCode],
) -> Result<String, AllocError>
    ensures { IfOk result (λ text. string_bytes text ≡ two_codes_text (first.now, second.now)) }
{
    let mut text = codes_text(alloc, first)?;
    if !second.is_empty() {
        text.push('|')?;
        text.push_str(&codes_text(alloc, second)?)?;
    }
    Ok(text)
}

pub fn criteria_text(alloc: Global, criteria: &[Criterion]) -> Result<String, AllocError>
    ensures { IfOk result (λ text. string_bytes text ≡ criteria_text criteria.now) }
{
    let mut text = String::new(alloc);
    let mut is_first = true;
    'items: for item in criteria {
        append_criterion(alloc, &mut text, is_first, item)?;
        is_first = false;
    }
    Ok(text)
}

/// The day of a number.
fn day_of(piece: &str) -> Option<Day>
    ensures { result ≡ day_of piece.now }
{
    Day::from_number(i64::from(plain(piece)?))
}

fn day_pieces(alloc: Global, text: &str) -> Result<Vec<Option<Day>>, AllocError>
    ensures { IfOk result (λ days. days.items ≡ map day_of (pieces text.now)) }
{
    text.split(';').map(|piece| day_of(piece)).collect(alloc)
}

fn criterion_pieces(alloc: Global, text: &str) -> Result<Vec<Option<Criterion>>, AllocError>
    ensures { IfOk result (λ criteria. criteria.items ≡ map criterion_of (pieces text.now)) }
{
    text.split(';')
        .map(|piece| Criterion::read(piece))
        .collect(alloc)
}

/// Each item, where none is missing.
fn all_some<T: Copy>(alloc: Global, items: &[Option<T>]) -> Result<Option<Vec<T>>, AllocError>
    ensures { IfOk result (λ all. option_map (λ xs. xs.items) all ≡ all_some items.now) }
{
    let mut all = Vec::new(alloc);
    'items: for item in items {
        match item {
            Some(item) => all.push(*item)?,
            None => return Ok(None),
        }
    }
    Ok(Some(all))
}

/// The days that a text writes.
pub fn days_in(alloc: Global, text: &str) -> Result<Option<Vec<Day>>, AllocError>
    ensures { IfOk result (λ days. option_map (λ xs. xs.items) days ≡ days_of text.now) }
{
    if text.is_empty() {
        return Ok(Some(Vec::new(alloc)));
    }
    all_some(alloc, day_pieces(alloc, text)?.as_slice())
}

/// The criteria that a text writes.
pub fn criteria_in(alloc: Global, text: &str) -> Result<Option<Vec<Criterion>>, AllocError>
    ensures { IfOk result (λ criteria. option_map (λ xs. xs.items) criteria ≡ criteria_of text.now) }
{
    if text.is_empty() {
        return Ok(Some(Vec::new(alloc)));
    }
    all_some(alloc, criterion_pieces(alloc, text)?.as_slice())
}

/// What is before the first `|`, and what is after it, where there is one.
fn cut_at_bar(text: &str) -> (&str, Option<&str>)
    ensures first { result.0.now ≡ (cut_at_bar text.now).0 }
    ensures rest { option_copied result.1 ≡ (cut_at_bar text.now).1 }
{
    match text.split_once('|') {
        Some((first, rest)) => (first, Some(rest)),
        None => (text, None),
    }
}

/// The two lists of codes that a text writes.
pub(crate) fn two_lists(
    alloc: Global,
    text: &str,
) -> Result<Option<(Seq<SchoolCode>, Seq<SchoolCode>)>, AllocError>
    ensures { IfOk result (λ lists. lists ≡ two_lists_of text.now) }
{
    let (first, rest) = cut_at_bar(text);
    let Some(siblings) = codes(alloc, first)? else {
        return Ok(None);
    };
    let Some(rest) = rest else {
        return Ok(Some((siblings, Seq::new(alloc))));
    };
    if rest.is_empty() {
        return Ok(None);
    }
    match codes(alloc, rest)? {
        Some(catchments) => Ok(Some((siblings, catchments))),
        None => Ok(None),
    }
}
