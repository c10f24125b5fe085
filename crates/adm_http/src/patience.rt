// One side of a connection, which is waited for until its time is over.
use std::io::{self, ErrorKind, Read, Write};
use std::net::{Shutdown, TcpStream};
use std::time::{Clock, Duration, Instant};

/// The reads, or the writes, of a connection. From an instant on, or else from the first of them, they
/// all together wait for so long at most. Then a read takes what has come already, and is an error
/// where that is nothing, and each write is an error. So is each where the clock cannot be read.
#[derive(Drop)]
pub struct TimedStream<'a, C: Clock> {
    stream: TcpStream,
    clock: &'a C,
    time: Duration,
    since: Option<Instant>,
    is_broken: bool,
}

impl<'a, C: Clock> TimedStream<'a, C> {
    /// A side whose time begins at an instant, or where there is none at its first call. Where the
    /// connection is broken, each read is an error.
    pub(crate) fn new(
        stream: TcpStream,
        clock: &'a C,
        time: Duration,
        since: Option<Instant>,
        is_broken: bool,
    ) -> Self {
        TimedStream {
            stream,
            clock,
            time,
            since,
            is_broken,
        }
    }

    /// A side of the same connection, whose time begins at its first call.
    pub(crate) fn another(self, time: Duration) -> Self {
        TimedStream::new(self.stream, self.clock, time, None, self.is_broken)
    }

    /// Ends the sending side.
    pub(crate) fn end_sending(&self) -> io::Result<()> {
        self.stream.shutdown(Shutdown::Write)
    }

    /// How long the next call may wait.
    fn remaining(&mut self) -> io::Result<Duration> {
        let now = Instant::now(self.clock)?;
        let spent = match self.since {
            Some(since) => now.duration_since(since),
            None => {
                self.since = Some(now);
                Duration::ZERO
            }
        };
        Ok(self.time.saturating_sub(spent))
    }
}

impl<C: Clock> Read for TimedStream<'_, C> {
    fn read(&mut self, buf: &mut [u8]) -> io::Result<usize> {
        if self.is_broken {
            return Err(io::Error::from(ErrorKind::ConnectionReset));
        }
        let remaining = self.remaining()?;
        if !remaining.is_zero() {
            self.stream.set_read_timeout(Some(remaining))?;
            return self.stream.read(buf);
        }
        self.stream.set_nonblocking(true)?;
        let got = self.stream.read(buf);
        self.stream.set_nonblocking(false)?;
        got
    }
}

impl<C: Clock> Write for TimedStream<'_, C> {
    fn write(&mut self, buf: &[u8]) -> io::Result<usize> {
        let remaining = self.remaining()?;
        // no time at all is an error
        self.stream.set_write_timeout(Some(remaining))?;
        self.stream.write(buf)
    }

    fn flush(&mut self) -> io::Result<()> {
        Ok(())
    }
}
