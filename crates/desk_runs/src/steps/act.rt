// An act: what is done to a register, read from the words of a step.
use adm_csv::read_rows;
use adm_types::{Command, Phase, Row, Season, Seq};
use adm_wire::{Watched, read_command};
use std::alloc::{AllocError, Global};

/// What is done to a register.
#[derive(Drop)]
pub(crate) enum Act {
    Create(Season),
    Handle(Command),
}

fn phase_of(text: &str) -> Option<Phase> {
    match text {
        "primary" => Some(Phase::Primary),
        "secondary" => Some(Phase::Secondary),
        _ => None,
    }
}

fn year_of(text: &str) -> Option<u32> {
    text.parse().ok()
}

fn without_holidays(alloc: Global, phase: Phase, year: u32) -> Option<Season> {
    Season::new(alloc, phase, year, &[]).ok()
}

fn season_of(alloc: Global, phase: Option<Phase>, year: Option<u32>) -> Option<Season> {
    match (phase, year) {
        (Some(phase), Some(year)) => without_holidays(alloc, phase, year),
        _ => None,
    }
}

/// The register of a season without holidays, as `secondary 2025`.
pub(crate) fn creation(alloc: Global, words: &str) -> Option<Act> {
    let (phase, year) = words.split_once(' ').unwrap_or((words, ""));
    match season_of(alloc, phase_of(phase), year_of(year)) {
        Some(season) => Some(Act::Create(season)),
        None => None,
    }
}

fn handling(alloc: Global, text: &str) -> Option<Act> {
    match read_command(alloc, text.as_bytes()) {
        Ok(command) => Some(Act::Handle(command)),
        Err(_) => None,
    }
}

/// The file of an import with these rows.
fn file_of(alloc: Global, rows: &str) -> Result<Vec<u8>, AllocError> {
    let header = "child,name,east,north,looked_after,flags,siblings,day,preferences";
    let mut file = Vec::from_slice(alloc, header.as_bytes())?;
    for row in rows.split('|') {
        file.push(b'\n')?;
        file.extend_from_slice(row.as_bytes())?;
    }
    Ok(file)
}

fn rows_of(alloc: Global, file: Result<Vec<u8>, AllocError>) -> Option<Vec<Row>> {
    match file {
        Ok(file) => read_rows(alloc, &mut Watched::new(file.as_slice())).ok(),
        Err(_) => None,
    }
}

/// An import of rows as they are in its file, with `|` between each two.
pub(crate) fn importing(alloc: Global, rows: &str) -> Option<Act> {
    match rows_of(alloc, file_of(alloc, rows)) {
        Some(rows) => Some(Act::Handle(Command::Import(Seq::from_vec(rows)))),
        None => None,
    }
}

/// `create PHASE YEAR`, `import ROWS`, or a command as JSON.
pub(crate) fn act_of(alloc: Global, words: &str) -> Option<Act> {
    match words.split_once(' ') {
        Some(("create", words)) => creation(alloc, words),
        Some(("import", rows)) => importing(alloc, rows),
        _ => handling(alloc, words),
    }
}
