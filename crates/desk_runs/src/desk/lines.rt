// The input of a desk, how far its reader and its writer go, and what it writes.
use crate::desk::desks::{Ran, given_back, opened, run_all};
use crate::disks::{Disks, NotFound, Work};
use crate::streams::{Limited, Limits, NO_LIMITS};
use adm_desk::Desk;
use adm_wire::Watched;
use sqlite::{Alter, Connection};
use std::alloc::Global;
use std::io;

/// What the lines of an input came to, what was written, and the disks after it.
#[derive(Drop)]
pub(crate) struct Outcome {
    pub(crate) ran: Ran,
    pub(crate) written: Vec<u8>,
    pub(crate) disks: Disks,
}

/// An input that a desk answers. The limits are those of its reader and of its writer.
#[derive(Drop)]
struct Answering<'a> {
    input: &'a [u8],
    limits: (Limits, Limits),
}

impl<'a> Work for Answering<'a> {
    type Came = (Ran, Vec<u8>);

    fn over<S: Alter>(
        &self,
        alloc: Global,
        conn: Connection<S>,
    ) -> ((Ran, Vec<u8>), Connection<S>) {
        match opened(alloc, conn) {
            Err((fault, conn)) => {
                let ran = Ran::NotFound(NotFound::Refused(fault));
                ((ran, Vec::new(alloc)), conn)
            }
            Ok(mut desk) => {
                let came = answered(alloc, &mut desk, self.input, self.limits);
                (came, given_back(desk))
            }
        }
    }
}

/// Has a desk answer an input. With it comes what it wrote.
fn answered<S: Alter>(
    alloc: Global,
    desk: &mut Desk<S>,
    input: &[u8],
    (reads, writes): (Limits, Limits),
) -> (Ran, Vec<u8>) {
    let mut reader = Watched::new(Limited::new(input, reads));
    let mut writer = Watched::new(Limited::new(Vec::new(alloc), writes));
    let came = run_all(desk, &mut reader, &mut writer);
    (came, writer.stream.stream)
}

/// Has a desk answer an input over disks, which stay. The limits are those of its reader and of its writer.
pub(crate) fn outcome_of(
    alloc: Global,
    disks: &Disks,
    input: &[u8],
    limits: (Limits, Limits),
) -> io::Result<Outcome> {
    let (came, disks) = disks.after(alloc, None, &Answering { input, limits })?;
    Ok(with_disks(alloc, came, disks))
}

fn with_disks(alloc: Global, came: Option<(Ran, Vec<u8>)>, disks: Disks) -> Outcome {
    match came {
        Some((ran, written)) => Outcome {
            ran,
            written,
            disks,
        },
        None => Outcome {
            ran: Ran::NotFound(NotFound::NoDatabase),
            written: Vec::new(alloc),
            disks,
        },
    }
}

/// The input of a desk, and how far its reader and its writer go.
#[derive(Drop)]
pub(crate) struct Lines {
    pub(crate) input: Vec<u8>,
    pub(crate) reader: Limits,
    pub(crate) writer: Limits,
}

impl Lines {
    pub(crate) fn new(alloc: Global) -> Lines {
        Lines {
            input: Vec::new(alloc),
            reader: NO_LIMITS,
            writer: NO_LIMITS,
        }
    }

    /// Adds a text and what ends it.
    pub(crate) fn add(&mut self, text: &str, end: &str) -> io::Result<()> {
        self.input.extend_from_slice(text.as_bytes())?;
        self.input.extend_from_slice(end.as_bytes())?;
        Ok(())
    }

    /// Has a desk answer the lines over the disks, and prints what it writes. The disks are those after it.
    pub(crate) fn run(&self, rt: &impl Print, alloc: Global, disks: &mut Disks) -> io::Result<Ran> {
        let limits = (self.reader, self.writer);
        let outcome = outcome_of(alloc, disks, self.input.as_slice(), limits)?;
        let ran = outcome.ran;
        *disks = outcome.disks;
        print_written(rt, outcome.written)?;
        Ok(ran)
    }
}

/// Prints what was written.
fn print_written(rt: &impl Print, written: Vec<u8>) -> io::Result<()> {
    let Ok(text) = String::from_utf8(written) else {
        return println!(rt; "  PROBLEM: not UTF-8");
    };
    for line in text.lines() {
        println!(rt; "  {line}")?;
    }
    if !text.is_empty() && !text.ends_with('\n') {
        println!(rt; "  (the line has no end)")?;
    }
    Ok(())
}
