// The program: it takes its arguments and the streams of its process, and runs on real files.
#![tactic(auto)]

use adm_files::HostRegisters;
use adm_host::{FileRows, print_memory_fault};
use adm_http::Port;
use adm_program::run_words;
use adm_wire::Watched;
use sqlite::Unknown;
use std::io::ErrorKind;
use std::process::ExitCode;
use std::{env, io};

fn main(rt: HostRuntime) -> io::Result<ExitCode> {
    match run(&rt) {
        Ok(status) => Ok(ExitCode::from(status)),
        Err(error) if error.kind() == ErrorKind::OutOfMemory => {
            let status = print_memory_fault(&mut Watched::new(rt.stderr()));
            Ok(ExitCode::from(status))
        }
        Err(error) => Err(error),
    }
}

/// Reads the arguments, and does what they say. The `Err` is why they were not read: out of memory,
/// or an argument that is not UTF-8.
fn run(rt: &HostRuntime) -> io::Result<u8> {
    let mut given = Vec::new(rt.alloc());
    for argument in env::args(rt)? {
        given.push(argument)?;
    }
    let mut arguments = Vec::new(rt.alloc());
    for argument in &given {
        arguments.push(argument.as_str())?;
    }
    Ok(run_words(
        rt.alloc(),
        arguments.as_slice(),
        HostRegisters::new(rt, Unknown),
        &mut FileRows::new(rt),
        &mut Port::new(rt),
        &mut Watched::new(rt.stdin()),
        &mut Watched::new(rt.stdout()),
        &mut Watched::new(rt.stderr()),
        &mut Watched::new(rt.stderr()),
    ))
}
