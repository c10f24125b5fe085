// Connections to a port, served over a desk.
ghost use Rattle.std.specs.Prelude.{◌≡◌, IfOk, IfErr, OnOk, OnErr, string_bytes};
ghost use Rattle.adm_wire.specs.Streams.{writer};
ghost use Rattle.adm_http.specs.Connections.{IsIdle, errors_of};
ghost use Rattle.adm_program.specs.Given.{visits};
ghost use Rattle.adm_program.specs.Logged.{PrintsConnections};
ghost use Rattle.adm_program.specs.Served.{IsListenFault, Serves, serving_text};
ghost use Rattle.adm_host.specs.Texts.{Puts};

use adm_desk::Desk;
use adm_files::close;
use adm_host::{Exit, Fault, LineEnd, put};
use adm_http::{Ports, Routes, serve_on};
use adm_wire::Output;
use sqlite::FileStore;
use sqlite_disk::Disk;
use std::alloc::{AllocError, Global};

/// What is printed before the first connection is waited for.
fn serving_text(alloc: Global, port: u16) -> Result<String, AllocError>
    ensures { IfOk result (λ text. string_bytes text ≡ serving_text port) }
{
    format!(in alloc; "serving on 127.0.0.1:{port}\n")
}

/// Prints that the port is served. The `Err` is Write, or Memory where memory ran out before.
fn put_serving<O: Output>(alloc: Global, port: u16, output: &mut O) -> Result<(), Fault>
    ensures { Puts (serving_text port)
        (writer O.Output output.old output.new) result }
{
    match serving_text(alloc, port) {
        Ok(text) => put(output, text.as_str()),
        Err(_) => Err(Fault::Memory),
    }
}

/// The routes of requests, and the port of this machine alone to which they come is taken. The `Err` is
/// Listen where it cannot be taken and is not known to be free, or Memory.
fn listen<P: Ports>(alloc: Global, ports: &mut P, port: u16) -> Result<Routes, Fault>
    ensures taken { OnOk result (P.traffic ports.new ≡ P.traffic_at ports.old port) }
    ensures idle { OnOk result (IsIdle (P.traffic ports.new)) }
    ensures err { IfErr result (IsListenFault (P.may_refuse ports.old port)) }
    ensures left { OnErr result (P.traffic ports.new ≡ P.traffic ports.old) }
{
    let Ok(routes) = Routes::new(alloc) else {
        return Err(Fault::Memory);
    };
    match ports.listen(port) {
        Ok(()) => Ok(routes),
        Err(_) => Err(Fault::Listen),
    }
}

/// Prints that the port is served, serves as many connections over the desk, and closes its own
/// connection, whatever comes.
pub fn serve_connections<D: Disk + Drop, P: Ports, O: Output, L: Output>(
    alloc: Global,
    mut desk: Desk<FileStore<D>>,
    ports: &mut P,
    port: u16,
    count: u32,
    output: &mut O,
    log: &mut L,
) -> LineEnd<D>
    ensures serves { Serves desk port count
        (visits P.Ports ports.old ports.new L.Output log.old log.new)
        (writer O.Output output.old output.new)
        result.exit result.closed }
    ensures log { PrintsConnections (errors_of L.Output log.old) (errors_of L.Output log.new) }
{
    match listen(alloc, ports, port) {
        Ok(routes) => match put_serving(alloc, port, output) {
            Ok(()) => {
                let status = serve_on(alloc, &routes, &mut desk, ports, count, log);
                close(desk, Ok(Exit::of_served(status)))
            }
            Err(fault) => close(desk, Err(fault)),
        },
        Err(fault) => close(desk, Err(fault)),
    }
}
