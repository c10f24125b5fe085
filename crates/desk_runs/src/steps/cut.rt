// What is to be left of a run whose reader or writer stops: counted from the bytes, without a desk.
use std::alloc::{AllocError, Global};

/// What is to be left of a run that was stopped.
#[derive(Clone, Copy)]
pub(crate) struct Cut {
    /// So many of the first lines were handled.
    pub(crate) handled: usize,
    /// So many of them were answered whole.
    pub(crate) answered: usize,
    /// So many bytes of their answers were written.
    pub(crate) written: usize,
}

/// Where the lines of a text end, each counted with its LF.
pub(crate) fn line_ends(alloc: Global, text: &[u8]) -> Result<Vec<usize>, AllocError> {
    let mut ends = Vec::new(alloc);
    let mut at: usize = 0;
    for byte in text {
        at = at.saturating_add(1);
        if *byte == b'\n' {
            ends.push(at)?;
        }
    }
    Ok(ends)
}

/// How many calls so many bytes take.
fn calls_for(len: usize, bytes: usize) -> usize {
    len.div_ceil(bytes.max(1))
}

/// How many of the lines end within so many bytes.
fn ended_within(bytes: usize, ends: &[usize]) -> usize {
    let mut count: usize = 0;
    for end in ends {
        if *end <= bytes {
            count = count.saturating_add(1);
        }
    }
    count
}

/// Where the first so many lines end.
fn end_of(lines: usize, ends: &[usize]) -> usize {
    match lines.checked_sub(1) {
        None => 0,
        Some(last) => *ends.get(last).unwrap_or(&0),
    }
}

/// A reader that passes so many calls. At the end of the input one call more tells it; the lines that had ended before it
/// stopped are handled and answered.
pub(crate) fn at_reader(
    calls: usize,
    bytes: usize,
    len: usize,
    lines: &[usize],
    answers: &[usize],
) -> Option<Cut> {
    if calls > calls_for(len, bytes) {
        return None;
    }
    let ended = ended_within(calls.saturating_mul(bytes), lines);
    Some(Cut {
        handled: ended,
        answered: ended,
        written: end_of(ended, answers),
    })
}

/// A writer that passes so many calls. Each answer is written by calls of its own; the line whose answer is cut
/// was handled.
pub(crate) fn at_writer(calls: usize, bytes: usize, answers: &[usize]) -> Option<Cut> {
    let mut calls = calls;
    let mut answered: usize = 0;
    let mut written: usize = 0;
    for end in answers {
        let needed = calls_for(end.saturating_sub(written), bytes);
        let handled = answered.saturating_add(1);
        if calls < needed {
            return Some(Cut {
                handled,
                answered,
                written: written.saturating_add(calls.saturating_mul(bytes)),
            });
        }
        calls = calls.saturating_sub(needed);
        answered = handled;
        written = *end;
    }
    None
}
