// Requests over HTTP: the response to a request's bytes, and one connection served.
#![tactic(auto)]

mod arrivals;
mod body_answer;
mod body_reader;
mod connections;
mod desk;
mod heads;
mod laws;
mod lengths;
mod listen;
mod patience;
mod port;
mod request_handler;
mod respond;
mod responses;
mod router;
mod routes;
mod serve;
mod states;

pub use connections::{Connections, NotTaken, Ports};
pub use desk::{answer, serve_one};
pub use laws::{bodies_are_commands, judged_in_one_way};
pub use listen::serve_on;
pub use port::Port;
pub use router::Routes;
pub use serve::ServeFault;
