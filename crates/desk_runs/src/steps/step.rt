// The steps of a run, read from the lines in which they are written.
use crate::steps::act::{Act, act_of, creation, importing};
use crate::steps::sweep::{Side, Sweep};
use crate::streams::Limits;
use std::alloc::Global;

/// One of the two disks.
#[derive(Clone, Copy, Debug)]
pub(crate) enum Which {
    Log,
    Database,
}

/// A line of a run.
#[derive(Drop)]
pub(crate) enum Step<'a> {
    /// `new`: two empty disks.
    New,
    /// `keep`: the disks are kept for later.
    Keep,
    /// `back`: the disks are again as they were kept.
    Back,
    /// `create PHASE YEAR`: the register of a season on the disks.
    Create(Act),
    /// `import ROWS`: an import of rows as they are in its file, with `|` between each two.
    Import(Act),
    /// `sql TEXT`: a text that is run on the database by hand.
    Sql(&'a str),
    /// `file NAME`: the disks hold what the file NAME.db holds, and the log beside it where there is one.
    File(&'a str),
    /// `open`: what an open answers.
    Open,
    /// `show`: what the register holds.
    Show,
    /// `line TEXT`: a line, answered by a desk that is opened for it.
    Line(&'a str),
    /// `given TEXT`: a line of the input of the next `run`.
    Given(&'a str),
    /// `last TEXT`: the same, without the end of the line.
    Last(&'a str),
    /// `reader CALLS BYTES`: the reader of the next `run` passes so many calls, each of so many bytes at most.
    /// `reader CALLS BYTES INTERRUPTS`: and before each, so many are interrupted.
    Reader(Limits),
    /// `writer CALLS BYTES` and `writer CALLS BYTES INTERRUPTS`: the same of its writer.
    Writer(Limits),
    /// `run`: the input, answered by one desk.
    Run,
    /// `reads BYTES` and `reads BYTES INTERRUPTS`: the input of the next `run`, over a reader that stops at each of its
    /// calls in turn. `writes BYTES` and `writes BYTES INTERRUPTS`: the same of the writer. The disks and the input stay.
    /// `mistake reads BYTES for OTHER`: the same, judged as a reader of so many other bytes a call. What it
    /// prints is to be a PROBLEM.
    Sweep(Sweep),
    /// `crash log|database CALLS`: the commands of the input of the next `run`, answered by a desk over disks of which one passes so many
    /// calls; then both crash, are started again and opened. The disks and the input stay.
    Crash(Which, u64),
    /// `stop log|database CALLS ACT`: the act over disks of which one passes so many calls.
    Stop(Which, u64, Act),
    /// `stops ACT`: the act, stopped at each call of each disk in turn. The disks stay as they are.
    Stops(Act),
    /// `changes ACT`: how many rows the act puts, and of how many keys it takes the rows out. The disks stay.
    Changes(Act),
    /// `migration`: an open of a file of the first version, stopped at each call of each disk in turn. The disks are then as the open leaves
    /// them that nothing stops. `mistake migration for NAME`: the same, judged by the register of the file NAME.db. What it prints is to be
    /// a PROBLEM.
    Migration(Option<&'a str>),
    /// `mistake ACT for OTHER`: the act stopped so, with the register after the other act for the one after it.
    /// What it prints is to be a PROBLEM.
    Mistake(Act, Act),
}

fn limits(words: &str) -> Option<Limits> {
    let (calls, words) = words.split_once(' ')?;
    let (bytes, interrupts) = words.split_once(' ').unwrap_or((words, "0"));
    Some(Limits {
        calls: calls.parse().ok()?,
        bytes: bytes.parse().ok()?,
        interrupts: interrupts.parse().ok()?,
    })
}

fn judged_sweep<'a>(side: Side, words: &str, judged_by: &str) -> Option<Step<'a>> {
    match Sweep::read(side, words, judged_by) {
        Some(sweep) => Some(Step::Sweep(sweep)),
        None => None,
    }
}

/// A sweep that is judged by its own bytes.
fn right_sweep<'a>(side: Side, words: &str) -> Option<Step<'a>> {
    let (bytes, _) = words.split_once(' ').unwrap_or((words, ""));
    judged_sweep(side, words, bytes)
}

fn mistaken_act<'a>(alloc: Global, done: &str, other: &str) -> Option<Step<'a>> {
    match (act_of(alloc, done), act_of(alloc, other)) {
        (Some(done), Some(other)) => Some(Step::Mistake(done, other)),
        _ => None,
    }
}

fn mistake<'a>(alloc: Global, words: &'a str) -> Option<Step<'a>> {
    let (done, other) = words.split_once(" for ").unwrap_or((words, ""));
    let (word, rest) = done.split_once(' ').unwrap_or((done, ""));
    match word {
        "reads" => judged_sweep(Side::Reader, rest, other),
        "writes" => judged_sweep(Side::Writer, rest, other),
        "migration" => Some(Step::Migration(Some(other))),
        _ => mistaken_act(alloc, done, other),
    }
}

fn which_of(word: &str) -> Option<Which> {
    match word {
        "log" => Some(Which::Log),
        "database" => Some(Which::Database),
        _ => None,
    }
}

fn calls_of(word: &str) -> Option<u64> {
    word.parse().ok()
}

fn crash<'a>(words: &str) -> Option<Step<'a>> {
    let (disk, calls) = words.split_once(' ')?;
    match (which_of(disk), calls_of(calls)) {
        (Some(disk), Some(calls)) => Some(Step::Crash(disk, calls)),
        _ => None,
    }
}

fn stop<'a>(alloc: Global, words: &str) -> Option<Step<'a>> {
    let (disk, words) = words.split_once(' ')?;
    let (calls, words) = words.split_once(' ')?;
    match (which_of(disk), calls_of(calls), act_of(alloc, words)) {
        (Some(disk), Some(calls), Some(act)) => Some(Step::Stop(disk, calls, act)),
        _ => None,
    }
}

fn stops<'a>(alloc: Global, words: &str) -> Option<Step<'a>> {
    match act_of(alloc, words) {
        Some(act) => Some(Step::Stops(act)),
        None => None,
    }
}

fn changes<'a>(alloc: Global, words: &str) -> Option<Step<'a>> {
    match act_of(alloc, words) {
        Some(act) => Some(Step::Changes(act)),
        None => None,
    }
}

fn create<'a>(alloc: Global, words: &str) -> Option<Step<'a>> {
    match creation(alloc, words) {
        Some(act) => Some(Step::Create(act)),
        None => None,
    }
}

fn import<'a>(alloc: Global, rows: &str) -> Option<Step<'a>> {
    match importing(alloc, rows) {
        Some(act) => Some(Step::Import(act)),
        None => None,
    }
}

impl<'a> Step<'a> {
    /// The step of a line. `None` where it is none, or where memory ran out.
    pub(crate) fn read(alloc: Global, line: &'a str) -> Option<Step<'a>> {
        let (word, rest) = line.split_once(' ').unwrap_or((line, ""));
        match word {
            "new" => Some(Step::New),
            "keep" => Some(Step::Keep),
            "back" => Some(Step::Back),
            "create" => create(alloc, rest),
            "import" => import(alloc, rest),
            "sql" => Some(Step::Sql(rest)),
            "file" => Some(Step::File(rest)),
            "open" => Some(Step::Open),
            "show" => Some(Step::Show),
            "line" => Some(Step::Line(rest)),
            "given" => Some(Step::Given(rest)),
            "last" => Some(Step::Last(rest)),
            "reader" => Some(Step::Reader(limits(rest)?)),
            "writer" => Some(Step::Writer(limits(rest)?)),
            "run" => Some(Step::Run),
            "reads" => right_sweep(Side::Reader, rest),
            "writes" => right_sweep(Side::Writer, rest),
            "crash" => crash(rest),
            "stop" => stop(alloc, rest),
            "stops" => stops(alloc, rest),
            "changes" => changes(alloc, rest),
            "migration" => Some(Step::Migration(None)),
            "mistake" => mistake(alloc, rest),
            _ => None,
        }
    }
}
