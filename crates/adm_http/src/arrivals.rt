// Connections that were accepted and wait together for their turn.
ghost use Rattle.std.specs.Prelude.{◌<◌, IfSome, vec_len};
ghost use Rattle.adm_http.specs.Connections.{PrintsAccepts, errors_of};

use adm_wire::Output;
use std::alloc::Global;
use std::io::{self, ErrorKind};
use std::net::{TcpListener, TcpStream};
use std::thread;
use std::time::{Clock, Duration, Instant};

/// How many connections wait together. Further ones wait in the system's queue.
const MOST: usize = 64;

/// How many seconds a request may take to come, from when its connection is accepted.
pub(crate) const SECONDS_OF_REQUEST: u64 = 5;

/// How many seconds are waited after an accept that failed.
const SECONDS_BETWEEN_ACCEPTS: u64 = 1;

/// How many milliseconds the first that waits is waited for, before the others are looked at.
const MILLISECONDS_OF_A_LOOK: u64 = 5;

/// A connection, and when it was accepted, where the clock could be read.
#[derive(Drop)]
pub(crate) struct Arrival {
    pub(crate) stream: TcpStream,
    pub(crate) since: Option<Instant>,
    /// Whether it broke while it waited. The system reports that once, so no read reports it again.
    pub(crate) is_broken: bool,
}

impl Arrival {
    /// A connection that was just accepted.
    fn now<C: Clock>(clock: &C, stream: TcpStream) -> Arrival {
        Arrival {
            stream,
            since: Instant::now(clock).ok(),
            is_broken: false,
        }
    }
}

/// What a look at a connection finds.
#[derive(Clone, Copy, PartialEq, Eq)]
enum Readiness {
    /// Nothing has come yet.
    Waits,
    /// Bytes have come, or it has ended.
    HasCome,
    /// It is broken.
    Broken,
}

/// Connections in the order in which they came. Each has its 5 seconds from its own accept, so those
/// that stay silent use them up together.
#[derive(Drop)]
pub(crate) struct Arrivals {
    waiting: Vec<Arrival>,
}

impl Arrivals {
    /// None yet. Where there is no memory for the list, each connection is given out as it comes.
    pub(crate) fn new(alloc: Global) -> Arrivals {
        Arrivals {
            waiting: match Vec::with_capacity(alloc, MOST) {
                Ok(room) => room,
                Err(_) => Vec::new(alloc),
            },
        }
    }

    /// Waits for the first connection on which bytes have come, which has ended, or whose time is
    /// over. At most `most` are accepted before one is given out. `None` would come after 2^64 turns.
    pub(crate) fn next<C: Clock, E: Output>(
        &mut self,
        clock: &C,
        listener: &TcpListener,
        most: usize,
        errors: &mut E,
    ) -> Option<Arrival>
        ensures { PrintsAccepts (errors_of E.Output errors.old) (errors_of E.Output errors.new) }
    {
        for _turn in 0..u64::MAX {
            if self.waiting.is_empty() {
                let arrival = accept(clock, listener, errors)?;
                if self.waiting.len() >= self.waiting.capacity() {
                    return Some(arrival);
                }
                self.waiting.push_reserved(arrival);
            }
            if let Some((at, is_broken)) = self.first_due(clock) {
                let mut arrival = self.waiting.remove(at);
                arrival.is_broken = is_broken;
                return Some(arrival);
            }
            self.take_more(clock, listener, most);
        }
        None
    }

    /// Where the first is that need not be waited for any longer, and whether it is broken. The oldest
    /// is waited for a moment.
    fn first_due<C: Clock>(&self, clock: &C) -> Option<(usize, bool)>
        ensures { IfSome result (λ due. due.0 < vec_len self.now.waiting) }
    {
        for at in 0..self.waiting.len() {
            let arrival = &self.waiting[at];
            match look_at(&arrival.stream, at == 0) {
                Readiness::Waits if is_over(clock, arrival.since) => return Some((at, false)),
                Readiness::Waits => {}
                look => return Some((at, look == Readiness::Broken)),
            }
        }
        None
    }

    /// Accepts what is in the system's queue, without waiting.
    fn take_more<C: Clock>(&mut self, clock: &C, listener: &TcpListener, most: usize) {
        if listener.set_nonblocking(true).is_err() {
            return;
        }
        for _room in 0..MOST {
            if self.waiting.len() >= most || self.waiting.len() >= self.waiting.capacity() {
                break;
            }
            match listener.accept() {
                Ok((stream, _)) => self.waiting.push_reserved(Arrival::now(clock, stream)),
                Err(_) => break,
            }
        }
        // Where this fails, the next accept fails too, and is reported.
        let _ = listener.set_nonblocking(false);
    }
}

/// Waits for a connection. An accept that fails, as where no descriptor is free, is no connection: it
/// is reported, and tried again a second later. `None` would come after 2^64 such seconds.
fn accept<C: Clock, E: Output>(clock: &C, listener: &TcpListener, errors: &mut E) -> Option<Arrival>
    ensures { PrintsAccepts (errors_of E.Output errors.old) (errors_of E.Output errors.new) }
{
    for _attempt in 0..u64::MAX {
        if let Ok((stream, _)) = listener.accept() {
            return Some(Arrival::now(clock, stream));
        }
        // A print that fails is ignored.
        let _ = errors.put(b"fault: Accept\n");
        thread::sleep(clock, Duration::from_secs(SECONDS_BETWEEN_ACCEPTS));
    }
    None
}

/// Looks whether bytes have come, and takes none.
fn look_at(stream: &TcpStream, may_wait: bool) -> Readiness {
    let seen = if may_wait {
        peek_for_a_moment(stream)
    } else {
        peek_at_once(stream)
    };
    let is_blocking = may_wait || stream.set_nonblocking(false).is_ok();
    match seen {
        Ok(_) if is_blocking => Readiness::HasCome,
        Err(error) if is_blocking && error.kind() == ErrorKind::WouldBlock => Readiness::Waits,
        Err(error) if is_blocking && error.kind() == ErrorKind::Interrupted => Readiness::Waits,
        _ => Readiness::Broken,
    }
}

/// How many of the first bytes have come, which are waited for a moment.
fn peek_for_a_moment(stream: &TcpStream) -> io::Result<usize> {
    stream.set_read_timeout(Some(Duration::from_millis(MILLISECONDS_OF_A_LOOK)))?;
    stream.peek(&mut [0u8; 1])
}

/// The same without waiting. From then on no call on the connection waits.
fn peek_at_once(stream: &TcpStream) -> io::Result<usize> {
    stream.set_nonblocking(true)?;
    stream.peek(&mut [0u8; 1])
}

/// Whether a request may take no longer. Where the clock cannot be read it may not.
fn is_over<C: Clock>(clock: &C, since: Option<Instant>) -> bool {
    match (since, Instant::now(clock)) {
        (Some(since), Ok(now)) => now.duration_since(since)
            >= Duration::from_secs(SECONDS_OF_REQUEST),
        _ => true,
    }
}
