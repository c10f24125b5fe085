// The lines of an input over a reader or a writer that stops at each of its calls in turn.
// What remains is compared with a run that nothing stops, and with runs of the first lines alone.
use crate::desk::desks::Ran;
use crate::desk::lines::{Outcome, outcome_of};
use crate::disks::Disks;
use crate::steps::{Cut, Side, Sweep, line_ends};
use crate::streams::NO_LIMITS;
use adm_desk::RunFault;
use std::alloc::Global;
use std::io;

/// A stream is stopped at so many calls at most.
const MOST: usize = 1000;

/// An input, answered with nothing that stops it.
#[derive(Drop)]
struct Whole {
    outcome: Outcome,
    /// Where its lines end, and where their answers do.
    lines: Vec<usize>,
    answers: Vec<usize>,
    /// The disks after no line, after the first, and so on.
    after: Vec<Disks>,
}

/// What a run comes to whose stream stops.
#[derive(Clone, Copy)]
enum Met {
    /// It left what it was to leave, with so many answers.
    Stopped(usize),
    /// It met no failure.
    ToTheEnd(Ran),
    Wrong(Ran),
}

/// How many stops left so many answers.
#[derive(Clone, Copy)]
struct Tally {
    answers: usize,
    stops: u64,
}

impl Tally {
    fn new() -> Tally {
        Tally {
            answers: 0,
            stops: 0,
        }
    }

    fn print(&self, rt: &impl Print) -> io::Result<()> {
        println!(rt; "  {} stops with {} answers", self.stops, self.answers)
    }

    /// Counts a stop, and prints those with fewer answers.
    fn add(&mut self, rt: &impl Print, answers: usize) -> io::Result<()> {
        if answers != self.answers {
            self.print(rt)?;
            self.answers = answers;
            self.stops = 0;
        }
        self.stops = self.stops.saturating_add(1);
        Ok(())
    }
}

/// The disks after the first bytes of an input.
fn after_first(alloc: Global, disks: &Disks, input: &[u8], len: usize) -> io::Result<Disks> {
    let first = input.get(..len).unwrap_or(input);
    let outcome = outcome_of(alloc, disks, first, (NO_LIMITS, NO_LIMITS))?;
    Ok(outcome.disks)
}

/// The disks after no line of an input, after the first, and so on.
fn after_each(
    alloc: Global,
    disks: &Disks,
    input: &[u8],
    lines: &[usize],
) -> io::Result<Vec<Disks>> {
    let mut after = Vec::new(alloc);
    after.push(after_first(alloc, disks, input, 0)?)?;
    for end in lines {
        after.push(after_first(alloc, disks, input, *end)?)?;
    }
    Ok(after)
}

/// Whether a run ended by an error of this stream.
fn is_fault_of(side: Side, ran: Ran) -> bool {
    match (side, ran) {
        (Side::Reader, Ran::Stopped(RunFault::Read)) => true,
        (Side::Writer, Ran::Stopped(RunFault::Write)) => true,
        _ => false,
    }
}

impl Whole {
    fn of(alloc: Global, disks: &Disks, input: &[u8]) -> io::Result<Whole> {
        let outcome = outcome_of(alloc, disks, input, (NO_LIMITS, NO_LIMITS))?;
        let lines = line_ends(alloc, input)?;
        let answers = line_ends(alloc, outcome.written.as_slice())?;
        let after = after_each(alloc, disks, input, lines.as_slice())?;
        Ok(Whole {
            outcome,
            lines,
            answers,
            after,
        })
    }

    /// Whether a run left what this leaves of it.
    fn is_cut(&self, cut: Cut, side: Side, found: &Outcome) -> bool {
        let after = self.after.get(cut.handled).unwrap_or(&self.outcome.disks);
        is_fault_of(side, found.ran)
            && found.written.len() == cut.written
            && self.outcome.written.starts_with(found.written.as_slice())
            && found.disks.is_same(after)
    }

    /// Whether a run left the same as this one.
    fn is_same(&self, found: &Outcome) -> bool {
        matches!(found.ran, Ran::ToTheEnd(_))
            && found.written.as_slice() == self.outcome.written.as_slice()
            && found.disks.is_same(&self.outcome.disks)
    }

    /// What a run comes to whose stream passed so many calls.
    fn met(&self, sweep: &Sweep, calls: usize, len: usize, found: &Outcome) -> Met {
        match sweep.cut(calls, len, self.lines.as_slice(), self.answers.as_slice()) {
            Some(cut) => {
                if self.is_cut(cut, sweep.side, found) {
                    return Met::Stopped(cut.answered);
                }
            }
            None => {
                if self.is_same(found) {
                    return Met::ToTheEnd(found.ran);
                }
            }
        }
        Met::Wrong(found.ran)
    }

    fn run(
        &self,
        alloc: Global,
        disks: &Disks,
        input: &[u8],
        sweep: &Sweep,
        calls: usize,
    ) -> io::Result<Met> {
        let found = outcome_of(alloc, disks, input, sweep.limits(calls))?;
        Ok(self.met(sweep, calls, input.len(), &found))
    }

    /// Stops the stream at each of its calls, until none stops it or one leaves what it may not.
    fn sweep(
        &self,
        rt: &impl Print,
        alloc: Global,
        disks: &Disks,
        input: &[u8],
        sweep: &Sweep,
    ) -> io::Result<()> {
        let mut tally = Tally::new();
        for calls in 0..MOST {
            match self.run(alloc, disks, input, sweep, calls)? {
                Met::Stopped(answers) => tally.add(rt, answers)?,
                Met::ToTheEnd(ran) => {
                    tally.print(rt)?;
                    return println!(rt; "  {ran:?}");
                }
                Met::Wrong(ran) => return println!(rt; "  PROBLEM: at call {calls}: {ran:?}"),
            }
        }
        println!(rt; "  PROBLEM: it stops always")
    }
}

/// Has a desk answer the lines over a stream that stops at each of its calls in turn, and prints how many stops left how
/// many answers.
pub(crate) fn sweeps(
    rt: &impl Print,
    alloc: Global,
    disks: &Disks,
    input: &[u8],
    sweep: &Sweep,
) -> io::Result<()> {
    let whole = Whole::of(alloc, disks, input)?;
    whole.sweep(rt, alloc, disks, input, sweep)
}
