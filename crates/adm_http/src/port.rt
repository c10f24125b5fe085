// The connections to a port of this machine, and how long each may take.
ghost use Rattle.std.specs.Prelude.{None, true};

use crate::arrivals::{Arrivals, SECONDS_OF_REQUEST};
use crate::connections::{Connections, NotTaken, Ports};
use crate::patience::TimedStream;
use adm_wire::{Input, Output, Watched, WriteFailed};
use std::alloc::Global;
use std::net::{Ipv4Addr, TcpListener};
use std::time::{Clock, Duration};

/// How many seconds a response may take to go out.
const SECONDS_OF_RESPONSE: u64 = 3;

/// How many seconds are given to what still comes after the response.
const SECONDS_OF_REST: u64 = 2;

/// How many bytes are read and dropped after the response: 2 MiB.
const BYTES_OF_REST: usize = 2_097_152;

/// A port of this machine alone. Before it is taken, no connection comes; then of those that wait the first on which bytes have come, so that a silent
/// one holds up no other.
///
/// An accept that fails, as where the process has no free descriptor, is no connection and is not
/// counted: `fault: Accept` and LF is printed, and the next one is tried a second later.
///
/// A request that has not come whole within 5 seconds from its accept is the error Read of its
/// connection, unless it lies there whole when its turn comes. A response that has not gone out
/// within 3 seconds is Write. Both are by the clock that is handed in. After a response the
/// connection's sending side is ended, and what still comes is read and dropped, to its end, for 2
/// seconds and up to 2 MiB at most: a close over bytes that nobody read would reset the connection,
/// and its client could lose the response. So one client holds the desk for 10 seconds at most, and
/// only once it has sent a byte. No clause speaks of time, nor of the bytes of a socket.
#[derive(Drop)]
pub struct Port<'a> {
    rt: &'a HostRuntime,
    taken: Option<Taken>,
}

/// What takes the connections of a port, and those that were accepted.
#[derive(Drop)]
struct Taken {
    listener: TcpListener,
    arrivals: Arrivals,
}

impl<'a> Port<'a> {
    /// No port yet.
    pub fn new(rt: &'a HostRuntime) -> Port<'a> {
        Port { rt, taken: None }
    }

    /// Takes the connections that come to a listener.
    pub fn accept_from(&mut self, alloc: Global, listener: TcpListener) {
        self.taken = Some(Taken {
            listener,
            arrivals: Arrivals::new(alloc),
        });
    }
}

impl<'a> Connections for Port<'a> {
    type Connection = Watched<TimedStream<'a, HostRuntime>>;

    ghost traffic = { λ _. None };

    fn next<E: Output>(&mut self, most: usize, errors: &mut E) -> Option<Self::Connection> {
        let Some(taken) = &mut self.taken else {
            return None;
        };
        let arrival = taken.arrivals.next(self.rt, &taken.listener, most, errors)?;
        Some(Watched::new(TimedStream::new(
            arrival.stream,
            self.rt,
            Duration::from_secs(SECONDS_OF_REQUEST),
            arrival.since,
            arrival.is_broken,
        )))
    }

    fn respond(&mut self, connection: Self::Connection, output: &[u8]) -> Result<(), WriteFailed> {
        let time = Duration::from_secs(SECONDS_OF_RESPONSE);
        let mut writer = Watched::new(connection.stream.another(time));
        writer.put(output)?;
        take_rest(writer.stream);
        Ok(())
    }

    fn close(&mut self, connection: Self::Connection) {
        drop(connection);
    }
}

impl Ports for Port<'_> {
    ghost traffic_at = { λ _ _. None };

    // of a port of the system nobody knows whether it is free
    ghost may_refuse = { λ _ _. true };

    fn listen(&mut self, port: u16) -> Result<(), NotTaken> {
        match TcpListener::bind(self.rt, (Ipv4Addr::LOCALHOST, port)) {
            Ok(listener) => {
                self.accept_from(self.rt.alloc(), listener);
                Ok(())
            }
            Err(_) => Err(NotTaken),
        }
    }
}

// Ends the sending side, and reads and drops what still comes.
fn take_rest<C: Clock>(response: TimedStream<'_, C>) {
    if response.end_sending().is_err() {
        return;
    }
    let mut reader = Watched::new(response.another(Duration::from_secs(SECONDS_OF_REST)));
    let mut buffer = [0u8; 8192];
    let mut left = BYTES_OF_REST;
    while left > 0 {
        match reader.read_some(&mut buffer) {
            Ok(count) if count > 0 => left = left.saturating_sub(count),
            _ => return,
        }
    }
}
