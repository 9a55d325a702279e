//! `precond`: conditions on a program's entry that suffice for safety.
#![tactic(auto)]

use pc_app::{NO_MEMORY, serve};
use pc_ports::{HostSink, HostStore};
use std::process::ExitCode;
use std::{env, io};

/// The status where the system does not give the words of the command line; nothing is written.
const NO_WORDS: u8 = 10;

/// Answers the words after the program's name, from the files of the system to its standard output.
fn main(rt: HostRuntime) -> ExitCode {
    ExitCode::from(status(&rt))
}

fn status(rt: &HostRuntime) -> u8 {
    let words: Vec<String> = match words_of(rt) {
        Ok(words) => words,
        Err(fault) if fault.kind() == io::ErrorKind::OutOfMemory => return NO_MEMORY,
        Err(_) => return NO_WORDS,
    };
    let mut store = HostStore::new(rt);
    let mut out = HostSink::new(io::writer(rt));
    serve(rt.alloc(), words.as_slice(), &mut store, &mut out)
}

fn words_of(rt: &HostRuntime) -> io::Result<Vec<String>> {
    Ok(env::args(rt)?.skip(1).collect(rt.alloc())?)
}
