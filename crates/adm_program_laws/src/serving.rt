// The law of connections that are served over a desk.
ghost use Rattle.std.specs.Prelude.{◌≡◌, if◌then◌else◌};
ghost use Rattle.sqlite.specs.Held.{state};
ghost use Rattle.adm_http.specs.Connections.{IsIdle, moment};
ghost use Rattle.adm_program_laws.specs.Exchanges.{KeepsIfSound, ServedIsKept};

use adm_desk::Desk;
use adm_http::{Connections, Routes, serve_on};
use adm_wire::Output;
use sqlite::Alter;
use std::alloc::Global;

/// Over connections whose bytes are known, after as many turns as `serve_on` serves: each request that
/// was read got the response of its route, or a beginning of it. A command that was answered is in the
/// request of its connection, and its response is the one to its answer, 200 just where that is Done.
/// The desk has the register after the acknowledged ones, in order, and a crash leaves it, or also
/// what the one in flight leaves. It does nothing.
pub fn served_is_kept<S: Alter>()
    ensures { ServedIsKept (state S.Store) }
{}

/// Serves connections, as `serve_on` does: what they were answered is kept. The exit status is 4 where
/// the desk has failed, and else 0.
pub fn serve_and_keep<N: Connections, S: Alter, E: Output>(
    alloc: Global,
    routes: &Routes,
    desk: &mut Desk<S>,
    connections: &mut N,
    count: u32,
    errors: &mut E,
) -> u8
    requires { IsIdle (N.traffic connections.old) }
    ensures status { result ≡ (if desk.new.failed then 4 else 0) }
    ensures kept { KeepsIfSound (state S.Store) count
        (moment E.Output desk.old (N.traffic connections.old) errors.old)
        (moment E.Output desk.new (N.traffic connections.new) errors.new) }
{
    // a call of the law says what the turns keep
    served_is_kept::<S>();
    serve_on(alloc, routes, desk, connections, count, errors)
}
