// Connections, taken one after the other, and their port, through traits whose contracts see their bytes.
ghost use Rattle.std.specs.Prelude.{◌≡◌, ℕ, [], Bool, false, true, Option, option_map, take, IfSome, IsTrue, OnOk, OnErr};
ghost use Rattle.adm_http.specs.Connections.{Traffic, TakesNext, Ends, IsIdle, IsOpen, ended, errors_of};

use adm_wire::{Input, Output, WriteFailed};

/// Connections, in the order in which they are taken. One that was taken is handed back before the
/// next one is: no other value is one, and none can be dropped.
pub trait Connections {
    /// A connection that was taken. Reads give what its client sends.
    type Connection: Input;

    // What comes and what was answered, where it is known.
    ghost traffic: { Self → Option Traffic };

    /// Takes the next connection: none only where none comes any more. At most `most` are accepted
    /// before one is given out. An accept that fails is no connection: it is printed. A connection that
    /// is given out has not failed.
    fn next<E: Output>(&mut self, most: usize, errors: &mut E) -> Option<Self::Connection>
        requires { IsIdle (traffic self.old) }
        ensures taken { TakesNext (traffic self.old) (traffic self.new) (option_map Self.Connection.remaining result)
            (errors_of E.Output errors.old) (errors_of E.Output errors.new) }
        ensures unfailed { IfSome result (λ connection. Self.Connection.has_failed connection ≡ false) };

    /// Writes the response to the connection, and ends it. At the `Err` the write has failed, and a
    /// beginning was written.
    fn respond(&mut self, connection: Self::Connection, output: &[u8]) -> Result<(), WriteFailed>
        requires { IsOpen (traffic self.old) }
        ensures ok { OnOk result (Ends (traffic self.old) (traffic self.new)
            (ended output.now (Self.Connection.has_failed connection) false)) }
        ensures err { OnErr result ((n : ℕ) × Ends (traffic self.old) (traffic self.new)
            (ended (take n output.now) (Self.Connection.has_failed connection) true)) };

    /// Ends the connection without a response.
    fn close(&mut self, connection: Self::Connection)
        requires { IsOpen (traffic self.old) }
        ensures { Ends (traffic self.old) (traffic self.new) (ended [] (Self.Connection.has_failed connection) false) };
}

/// The port was not taken.
#[derive(Clone, Copy, Debug, PartialEq, Eq)]
pub struct NotTaken;

/// Connections to the port that the arguments name: they come once it is taken.
pub trait Ports: Connections {
    // What comes to a port, where it is known.
    ghost traffic_at: { Self → ℕ → Option Traffic };

    // Whether a port may be refused: one of which it is known that it is free may not.
    ghost may_refuse: { Self → ℕ → Bool };

    /// Takes a port of this machine: from then on its connections come. At the `Err` it was not taken,
    /// and nor was a connection.
    fn listen(&mut self, port: u16) -> Result<(), NotTaken>
        ensures taken { OnOk result (Self.traffic self.new ≡ traffic_at self.old port) }
        ensures idle { OnOk result (IsIdle (Self.traffic self.new)) }
        ensures left { OnErr result (Self.traffic self.new ≡ Self.traffic self.old) }
        ensures refused { OnErr result (IsTrue (may_refuse self.old port)) };
}
