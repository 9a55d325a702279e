//! `example`: how a program of one's own calls the libraries. It prints the condition of the source in the file that its
//! first word names, as `precond infer` does, and has no command line and no causes of faults.
#![tactic(auto)]

ghost use Rattle.std.specs.Prelude.{◌≤◌, length};
ghost use Rattle.example.specs.declared.TheConstants.{SOURCE_BYTES};

use pc_cert::show_condition;
use pc_certify::infer;
use pc_graph::lower;
use pc_ports::{HostSink, HostStore, Store, put_all};
use pc_program::Program;
use pc_syntax::read;
use pc_text::{NoMemory, Text};
use std::alloc::Global;
use std::process::ExitCode;
use std::{env, io};

/// The most bytes of a source that it reads.
const SOURCE_BYTES: usize = 1_048_576;

/// The status is 0 where the condition was printed, and else 1.
fn main(rt: HostRuntime) -> ExitCode {
    ExitCode::from(if is_printed(&rt) { 0 } else { 1 })
}

fn is_printed(rt: &HostRuntime) -> bool {
    match words_of(rt) {
        Ok(words) if !words.is_empty() => is_answered(rt, words[0].as_str()),
        _ => false,
    }
}

fn words_of(rt: &HostRuntime) -> io::Result<Vec<String>> {
    Ok(env::args(rt)?.skip(1).collect(rt.alloc())?)
}

/// Whether the condition of the source in the file was printed.
fn is_answered(rt: &HostRuntime, name: &str) -> bool {
    let mut store = HostStore::new(rt);
    match store.fetch(rt.alloc(), name, SOURCE_BYTES) {
        Ok(source) if source.len() <= SOURCE_BYTES => is_told(rt, source.as_slice()),
        _ => false,
    }
}

/// Whether the bytes spell a program, and its condition was printed.
fn is_told(rt: &HostRuntime, source: &[u8]) -> bool
    requires { length source.now ≤ SOURCE_BYTES }
{
    match read(rt.alloc(), source) {
        Ok(program) => match condition(rt.alloc(), &program) {
            Ok(text) => put_all(&mut HostSink::new(io::writer(rt)), text.bytes()).is_ok(),
            Err(NoMemory) => false,
        },
        Err(_) => false,
    }
}

/// The condition of a program.
fn condition(alloc: Global, program: &Program) -> Result<Text, NoMemory> {
    let graph = lower(alloc, program)?;
    match infer(alloc, &graph) {
        Ok(certificate) => show_condition(alloc, &certificate, &program.names),
        Err(_) => Err(NoMemory),
    }
}
