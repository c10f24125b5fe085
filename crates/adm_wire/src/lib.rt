// Commands, answers and streams as bytes: what comes in at the desk's door and what goes out.
//! Commands and answers as JSON, and readers and writers that report whether they failed.
#![tactic(auto)]

mod command_fields;
mod fault;
mod fields;
mod kinds;
mod read;
mod streams;
mod texts;
mod what_if;

pub use fault::WireFault;
pub use read::read_command;
pub use streams::{Input, Output, ReadFailed, Watched, WriteFailed};
pub use texts::{failed_text, fault_text, memory_text, refusal_text, reply_text};
pub use what_if::{WhatIf, read_what_if};
