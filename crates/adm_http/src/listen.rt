// The loop over connections, one after the other.
ghost use Rattle.std.specs.Prelude.{◌≡◌, if◌then◌else◌};
ghost use Rattle.sqlite.specs.Held.{state};
ghost use Rattle.adm_desk.specs.DeskState.{Handles};
ghost use Rattle.adm_http.specs.Purposes.{RunsBody};
ghost use Rattle.adm_http.specs.Connections.{AnswersUpTo, ServesEach, ServesTurn, ServesOpen, IsIdle, IsOpen, connection_fault_line, moment, service};
ghost use Rattle.adm_http.specs.Shows.{Shows};

use crate::connections::Connections;
use crate::request_handler::RequestHandler;
use crate::router::Routes;
use crate::serve::{ServeFault, answer_request};
use adm_desk::Desk;
use adm_wire::Output;
use sqlite::Alter;
use std::alloc::Global;

/// Serves connections for as many turns, one after the other: each turn takes the next one, reads its
/// request, answers it over the desk and writes the response to it. A turn to which none comes leaves
/// the desk. A connection's error is printed as `fault: `, its name and LF, and the next one is
/// served; a print that fails is ignored. The exit status is 4 where the desk has failed, and else 0.
pub fn serve_on<N: Connections, S: Alter, E: Output>(
    alloc: Global,
    routes: &Routes,
    desk: &mut Desk<S>,
    connections: &mut N,
    count: u32,
    errors: &mut E,
) -> u8
    requires { IsIdle (N.traffic connections.old) }
    ensures status { result ≡ (if desk.new.failed then 4 else 0) }
    ensures idle { IsIdle (N.traffic connections.new) }
    ensures desk { AnswersUpTo (RunsBody (state S.Store)) Shows count desk.old desk.new }
    ensures serves { ServesEach (RunsBody (state S.Store)) Shows count
        (moment E.Output desk.old (N.traffic connections.old) errors.old)
        (moment E.Output desk.new (N.traffic connections.new) errors.new) }
{
    serve_each(alloc, routes, desk, connections, count, errors);
    if desk.register().is_none() { 4 } else { 0 }
}

/// Serves connections for as many turns.
pub(crate) fn serve_each<A: RequestHandler, N: Connections, E: Output>(
    alloc: Global,
    routes: &Routes,
    desk: &mut A,
    connections: &mut N,
    count: u32,
    errors: &mut E,
)
    requires { IsIdle (N.traffic connections.old) }
    ensures idle { IsIdle (N.traffic connections.new) }
    ensures serves { ServesEach A.runs A.shows count
        (moment E.Output (A.view desk.old) (N.traffic connections.old) errors.old)
        (moment E.Output (A.view desk.new) (N.traffic connections.new) errors.new) }
{
    for turn in 0..count {
        // no more are accepted than are served
        let most = (count - turn) as usize;
        serve_next(alloc, routes, desk, connections, most, errors);
    }
}

// Serves the next connection, where one comes.
fn serve_next<A: RequestHandler, N: Connections, E: Output>(
    alloc: Global,
    routes: &Routes,
    desk: &mut A,
    connections: &mut N,
    most: usize,
    errors: &mut E,
)
    requires { IsIdle (N.traffic connections.old) }
    ensures idle { IsIdle (N.traffic connections.new) }
    ensures serves { ServesTurn A.runs A.shows
        (moment E.Output (A.view desk.old) (N.traffic connections.old) errors.old)
        (moment E.Output (A.view desk.new) (N.traffic connections.new) errors.new) }
{
    let Some(connection) = connections.next(most, errors) else {
        return;
    };
    if let Err(fault) = serve_connection(alloc, routes, desk, connections, connection) {
        // A print that fails is ignored.
        let _ = errors.put(fault_line(fault).as_bytes());
    }
}

// Serves the request of a connection, and ends it.
fn serve_connection<A: RequestHandler, N: Connections>(
    alloc: Global,
    routes: &Routes,
    desk: &mut A,
    connections: &mut N,
    mut connection: N::Connection,
) -> Result<usize, ServeFault>
    requires { IsOpen (N.traffic connections.old) }
    ensures { ServesOpen A.runs A.shows
        (service (A.view desk.old) (N.traffic connections.old))
        (service (A.view desk.new) (N.traffic connections.new))
        (N.Connection.remaining connection) (N.Connection.has_failed connection) result }
{
    match answer_request(alloc, routes, desk, &mut connection) {
        Ok(output) => match connections.respond(connection, &output) {
            Ok(()) => Ok(output.len()),
            Err(_) => Err(ServeFault::Write),
        },
        Err(fault) => {
            connections.close(connection);
            Err(fault)
        }
    }
}

// What is printed of an error.
fn fault_line(fault: ServeFault) -> &'static str
    ensures { result.now ≡ connection_fault_line fault }
{
    match fault {
        ServeFault::Read => "fault: Read\n",
        ServeFault::Write => "fault: Write\n",
        ServeFault::Memory => "fault: Memory\n",
    }
}
