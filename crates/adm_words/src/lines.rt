// One line of the command line, read from the values that clap found.
ghost use Rattle.std.specs.Prelude.{◌≡◌, ◌≤◌, map, option_map, IfOk, IfSome};
ghost use Rattle.clap.specs.Words.{first_of, all_of, found_of, rows_of};
ghost use Rattle.adm_words.specs.Lines.{IsLine, ReadsLine, ReadsDays, IsInRange, phase_of, number_in, number_from, year_of, size_of, phase_in, year_in, holidays_in, size_in, init_in, do_in, what_if_line_in, line_in};

use crate::pairs::{import, reading};
use crate::serving::serve;
use crate::{Action, WordsFault};
use adm_types::{Day, Phase, Seq, Size};
use clap::ArgMatches;
use std::alloc::Global;

/// The first value of an argument.
pub(crate) fn text_of<'a>(found: &ArgMatches<'a>, id: &str) -> Option<&'a str>
    ensures { option_map (λ s. s.now) result ≡ first_of id.now (rows_of (found_of found.now)) }
{
    found.get_str(id)
}

/// All values of an argument.
fn texts_of<'f, 'a>(found: &'f ArgMatches<'a>, id: &str) -> Option<&'f [&'a str]>
    ensures { option_map (λ s. map (λ v. v.now) s.now) result ≡ all_of id.now (rows_of (found_of found.now)) }
{
    found.get_strs(id)
}

/// The phase that a text names.
fn read_phase(text: &str) -> Option<Phase>
    ensures { result ≡ phase_of text.now }
{
    if text == "primary" {
        Some(Phase::Primary)
    } else if text == "secondary" {
        Some(Phase::Secondary)
    } else {
        None
    }
}

/// The number that a text writes: decimal digits, and a plus or none before them.
fn read_number(text: &str) -> Option<u32>
    ensures { result ≡ number_in text.now }
{
    text.parse().ok()
}

/// The number that a text writes, from the least to the most.
pub(crate) fn read_from(text: &str, least: u32, most: u32) -> Option<u32>
    ensures value { result ≡ number_from least most text.now }
    ensures in_range { IfSome result (λ number. (least ≤ number) × (number ≤ most)) }
{
    let number = read_number(text)?;
    if least <= number && number <= most {
        Some(number)
    } else {
        None
    }
}

/// The year that a text writes, from 2000 to 2100.
fn read_year(text: &str) -> Option<u32>
    ensures value { result ≡ year_of text.now }
    ensures in_range { IfSome result (λ year. (2000 ≤ year) × (year ≤ 2100)) }
{
    read_from(text, 2000, 2100)
}

fn phase_in(found: &ArgMatches<'_>) -> Option<Phase>
    ensures { result ≡ phase_in (rows_of (found_of found.now)) }
{
    read_phase(text_of(found, "phase")?)
}

fn year_in(found: &ArgMatches<'_>) -> Option<u32>
    ensures value { result ≡ year_in (rows_of (found_of found.now)) }
    ensures in_range { IfSome result (λ year. (2000 ≤ year) × (year ≤ 2100)) }
{
    read_year(text_of(found, "year")?)
}

/// The days that texts name.
fn read_days(alloc: Global, texts: &[&str]) -> Result<Seq<Day>, WordsFault>
    ensures { ReadsDays (map (λ t. t.now) texts.now) result }
{
    let mut days = Vec::new(alloc);
    for text in texts {
        match Day::parse(text) {
            Some(day) => days.push(day)?,
            None => return Err(WordsFault::BadDate),
        }
    }
    Ok(Seq::from_vec(days))
}

fn holidays_in(alloc: Global, found: &ArgMatches<'_>) -> Result<Seq<Day>, WordsFault>
    ensures { ReadsDays (holidays_in (rows_of (found_of found.now))) result }
{
    read_days(alloc, texts_of(found, "holiday").unwrap_or(&[]))
}

/// The size by the value of `--large`.
fn read_size(large: Option<&str>) -> Size
    ensures { result ≡ size_of (option_map (λ s. s.now) large.entry) }
{
    match large {
        Some(text) if text == "true" => Size::Large,
        _ => Size::Standard,
    }
}

fn size_in(found: &ArgMatches<'_>) -> Size
    ensures { result ≡ size_in (rows_of (found_of found.now)) }
{
    read_size(text_of(found, "large"))
}

/// The line `init`, whose values are there.
fn init<'a>(alloc: Global, found: &ArgMatches<'a>) -> Result<Action<'a>, WordsFault>
    requires { IsLine (init_in (rows_of (found_of found.now))) }
    ensures reads { ReadsLine (init_in (rows_of (found_of found.now))) result }
    ensures in_range { IfOk result IsInRange }
{
    let Some(file) = text_of(found, "file") else {
        unreachable!()
    };
    let Some(phase) = phase_in(found) else {
        unreachable!()
    };
    let Some(year) = year_in(found) else {
        unreachable!()
    };
    let size = size_in(found);
    let holidays = holidays_in(alloc, found)?;
    Ok(Action::Init {
        file,
        phase,
        year,
        holidays,
        size,
    })
}

/// The line `do`, whose file is there.
fn do_lines<'a>(found: &ArgMatches<'a>) -> Result<Action<'a>, WordsFault>
    requires { IsLine (do_in (rows_of (found_of found.now))) }
    ensures reads { ReadsLine (do_in (rows_of (found_of found.now))) result }
    ensures in_range { IfOk result IsInRange }
{
    match text_of(found, "file") {
        Some(file) => Ok(Action::Do { file }),
        None => unreachable!(),
    }
}

/// The line `what-if`, whose file is there.
fn what_if<'a>(found: &ArgMatches<'a>) -> Result<Action<'a>, WordsFault>
    requires { IsLine (what_if_line_in (rows_of (found_of found.now))) }
    ensures reads { ReadsLine (what_if_line_in (rows_of (found_of found.now))) result }
    ensures in_range { IfOk result IsInRange }
{
    match text_of(found, "file") {
        Some(file) => Ok(Action::WhatIf { file }),
        None => unreachable!(),
    }
}

/// The action of the line of this name, with the values that clap found.
pub(crate) fn read_line<'a>(
    alloc: Global,
    name: &str,
    found: &ArgMatches<'a>,
) -> Result<Action<'a>, WordsFault>
    requires { IsLine (line_in name.now (rows_of (found_of found.now))) }
    ensures reads { ReadsLine (line_in name.now (rows_of (found_of found.now))) result }
    ensures in_range { IfOk result IsInRange }
{
    if name == "init" {
        init(alloc, found)
    } else if name == "do" {
        do_lines(found)
    } else if name == "what-if" {
        what_if(found)
    } else if name == "import" {
        import(found)
    } else if name == "serve" {
        serve(found)
    } else {
        reading(name, found)
    }
}
