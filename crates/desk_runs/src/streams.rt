// Readers and writers that stop.
use std::io::{self, ErrorKind, Read, Write};

/// How far a stream goes: it passes so many calls, each of so many bytes at most, and fails from then on.
#[derive(Clone, Copy)]
pub(crate) struct Limits {
    pub(crate) calls: usize,
    pub(crate) bytes: usize,
    /// Before each of these calls, and before the one that fails, so many are interrupted.
    pub(crate) interrupts: usize,
}

/// No stop, and any number of bytes a call.
pub(crate) const NO_LIMITS: Limits = Limits {
    calls: usize::MAX,
    bytes: usize::MAX,
    interrupts: 0,
};

/// A stream that goes so far.
#[derive(Drop)]
pub(crate) struct Limited<S> {
    pub(crate) stream: S,
    limits: Limits,
    interrupted: usize,
}

impl<S> Limited<S> {
    /// The stream, which goes so far from here on.
    pub(crate) fn new(stream: S, limits: Limits) -> Self {
        Limited {
            stream,
            limits,
            interrupted: 0,
        }
    }

    /// How many bytes the next call takes.
    fn room(&mut self, len: usize) -> io::Result<usize> {
        if self.interrupted < self.limits.interrupts {
            self.interrupted += 1;
            return Err(io::Error::from(ErrorKind::Interrupted));
        }
        self.interrupted = 0;
        if self.limits.calls == 0 {
            return Err(io::Error::other("stopped"));
        }
        self.limits.calls -= 1;
        Ok(len.min(self.limits.bytes))
    }
}

impl<R: Read> Read for Limited<R> {
    fn read(&mut self, buf: &mut [u8]) -> io::Result<usize> {
        let len = self.room(buf.len())?.min(buf.len());
        self.stream.read(&mut buf[..len])
    }
}

impl<W: Write> Write for Limited<W> {
    fn write(&mut self, buf: &[u8]) -> io::Result<usize> {
        let len = self.room(buf.len())?.min(buf.len());
        self.stream.write(&buf[..len])
    }

    fn flush(&mut self) -> io::Result<()> {
        Ok(())
    }
}
