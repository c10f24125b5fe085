// Each step of the input as it is done, over the disks and the input as the steps before left them.
use crate::desk::acts::{Came, Doing};
use crate::desk::crashes::crash;
use crate::desk::desks::Ran;
use crate::desk::files::disks_of;
use crate::desk::lines::Lines;
use crate::desk::migrations::migrations;
use crate::desk::stops::stops;
use crate::desk::sweeps::sweeps;
use crate::disks::{Counts, Disks};
use crate::registers::print_register;
use crate::steps::{Act, Step, Sweep, Which};
use std::alloc::Global;
use std::fs::Files;
use std::io;

/// The disks and the input as the steps before left them.
#[derive(Drop)]
pub(crate) struct Bench {
    alloc: Global,
    disks: Disks,
    kept: Disks,
    lines: Lines,
}

impl Bench {
    pub(crate) fn new(alloc: Global) -> Bench {
        Bench {
            alloc,
            disks: Disks::new(alloc),
            kept: Disks::new(alloc),
            lines: Lines::new(alloc),
        }
    }

    /// Takes the step of a line.
    pub(crate) fn take<R: Print + Files + Alloc>(&mut self, rt: &R, line: &str) -> io::Result<()> {
        match Step::read(self.alloc, line) {
            Some(step) => self.step(rt, &step),
            None => println!(rt; "  NOT A STEP"),
        }
    }

    fn step<R: Print + Files + Alloc>(&mut self, rt: &R, step: &Step<'_>) -> io::Result<()> {
        match step {
            Step::New => {
                *self = Bench::new(self.alloc);
                Ok(())
            }
            Step::Keep => {
                self.kept = self.disks.copy(self.alloc)?;
                Ok(())
            }
            Step::Back => {
                self.disks = self.kept.copy(self.alloc)?;
                Ok(())
            }
            Step::Create(act) | Step::Import(act) => self.act(rt, act, None),
            Step::Sql(text) => self.sql(rt, text),
            Step::File(name) => {
                self.disks = disks_of(rt, self.alloc, name)?;
                Ok(())
            }
            Step::Open => self.open(rt),
            Step::Show => self.show(rt),
            Step::Line(text) => self.line(rt, text),
            Step::Given(text) => self.lines.add(text, "\n"),
            Step::Last(text) => self.lines.add(text, ""),
            Step::Reader(limits) => {
                self.lines.reader = *limits;
                Ok(())
            }
            Step::Writer(limits) => {
                self.lines.writer = *limits;
                Ok(())
            }
            Step::Run => self.run(rt),
            Step::Sweep(sweep) => self.sweep(rt, sweep),
            Step::Crash(disk, calls) => self.crash(rt, (*disk, *calls)),
            Step::Stop(disk, calls, act) => self.act(rt, act, Some((*disk, *calls))),
            Step::Changes(act) => self.changes(rt, act),
            Step::Migration(None) => self.migration(rt),
            Step::Migration(Some(other)) => {
                let other = disks_of(rt, self.alloc, other)?;
                migrations(rt, self.alloc, &self.disks, &other)
            }
            Step::Stops(act) => stops(rt, self.alloc, &self.disks, act, act),
            Step::Mistake(act, other) => stops(rt, self.alloc, &self.disks, act, other),
        }
    }

    /// Does an act, over disks of which one may stop.
    fn act(&mut self, rt: &impl Print, act: &Act, stop: Option<(Which, u64)>) -> io::Result<()> {
        let (came, disks) = self.disks.after(self.alloc, stop, &Doing { act })?;
        self.disks = disks;
        println!(rt; "  {:?}", came.unwrap_or(Came::NoDatabase))
    }

    /// Prints how much an act writes. It leaves the disks as they are.
    fn changes(&self, rt: &impl Print, act: &Act) -> io::Result<()> {
        match Counts::of(self.alloc, &self.disks, act)? {
            Some(Counts { put, cut }) => println!(rt; "  {put} rows put, {cut} keys cut"),
            None => println!(rt; "  no change"),
        }
    }

    fn sql(&mut self, rt: &impl Print, text: &str) -> io::Result<()> {
        let (ran, disks) = self.disks.after_sql(self.alloc, text)?;
        self.disks = disks;
        match ran {
            Some(Ok(())) => Ok(()),
            Some(Err(error)) => println!(rt; "  {error}"),
            None => println!(rt; "  NoDatabase"),
        }
    }

    /// Prints what an open answers. It leaves the disks as they are.
    fn open(&mut self, rt: &impl Print) -> io::Result<()> {
        let (found, left) = self.disks.opened(self.alloc)?;
        match found.err() {
            None => println!(rt; "  opened")?,
            Some(fault) => println!(rt; "  {fault:?}")?,
        }
        if self.disks.is_same(&left) {
            Ok(())
        } else {
            println!(rt; "  PROBLEM: the disks were changed")
        }
    }

    /// Stops an open at each call of each disk. The disks are then as the open leaves them that nothing stops.
    fn migration(&mut self, rt: &impl Print) -> io::Result<()> {
        migrations(rt, self.alloc, &self.disks, &self.disks)?;
        let (_found, left) = self.disks.opened(self.alloc)?;
        self.disks = left;
        Ok(())
    }

    fn show(&self, rt: &impl Print) -> io::Result<()> {
        match self.disks.register(self.alloc)? {
            Ok(register) => print_register(rt, self.alloc, &register),
            Err(fault) => println!(rt; "  {fault:?}"),
        }
    }

    /// Has a desk that is opened for it answer a line.
    fn line(&mut self, rt: &impl Print, text: &str) -> io::Result<()> {
        let mut lines = Lines::new(self.alloc);
        lines.add(text, "\n")?;
        match lines.run(rt, self.alloc, &mut self.disks)? {
            Ran::ToTheEnd(_) => Ok(()),
            other => println!(rt; "  {other:?}"),
        }
    }

    /// Has desks answer the lines that were given, over a stream that stops at each call in turn.
    fn sweep(&self, rt: &impl Print, sweep: &Sweep) -> io::Result<()> {
        sweeps(
            rt,
            self.alloc,
            &self.disks,
            self.lines.input.as_slice(),
            sweep,
        )
    }

    /// Has a desk answer the commands that were given, up to a crash.
    fn crash(&self, rt: &impl Print, stop: (Which, u64)) -> io::Result<()> {
        crash(
            rt,
            self.alloc,
            &self.disks,
            self.lines.input.as_slice(),
            stop,
        )
    }

    /// Has one desk answer the lines that were given.
    fn run(&mut self, rt: &impl Print) -> io::Result<()> {
        let ran = self.lines.run(rt, self.alloc, &mut self.disks)?;
        self.lines = Lines::new(self.alloc);
        println!(rt; "  {ran:?}")
    }
}
