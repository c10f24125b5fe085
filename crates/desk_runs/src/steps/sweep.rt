// A stream that stops at each of its calls in turn, and how that is written.
use crate::steps::cut::{Cut, at_reader, at_writer};
use crate::streams::{Limits, NO_LIMITS};

/// The reader or the writer of a run.
#[derive(Clone, Copy, Debug)]
pub(crate) enum Side {
    Reader,
    Writer,
}

/// A stream that stops at each of its calls in turn.
#[derive(Clone, Copy)]
pub(crate) struct Sweep {
    pub(crate) side: Side,
    /// The most bytes of a call.
    bytes: usize,
    /// How many interrupted calls come before each.
    interrupts: usize,
    /// The bytes of a call by which it is judged what remains.
    judged_by: usize,
}

impl Sweep {
    /// The sweep of `BYTES` or `BYTES INTERRUPTS`, judged as one of so many bytes.
    pub(crate) fn read(side: Side, words: &str, judged_by: &str) -> Option<Sweep> {
        let (bytes, interrupts) = words.split_once(' ').unwrap_or((words, "0"));
        let bytes = bytes.parse().ok()?;
        let interrupts = interrupts.parse().ok()?;
        let judged_by = judged_by.parse().ok()?;
        Some(Sweep {
            side,
            bytes,
            interrupts,
            judged_by,
        })
    }

    /// How far the reader and the writer go where the one of this sweep passes so many calls.
    pub(crate) fn limits(&self, calls: usize) -> (Limits, Limits) {
        let limits = Limits {
            calls,
            bytes: self.bytes,
            interrupts: self.interrupts,
        };
        match self.side {
            Side::Reader => (limits, NO_LIMITS),
            Side::Writer => (NO_LIMITS, limits),
        }
    }

    /// What is to be left where the stream passes so many calls, for an input of this many bytes with these ends
    /// of lines, and these ends of their answers. `None` where it goes to the end.
    pub(crate) fn cut(
        &self,
        calls: usize,
        len: usize,
        lines: &[usize],
        answers: &[usize],
    ) -> Option<Cut> {
        match self.side {
            Side::Reader => at_reader(calls, self.judged_by, len, lines, answers),
            Side::Writer => at_writer(calls, self.judged_by, answers),
        }
    }
}
