//! Calls over memory.

use crate::text::Text;
use pc_alone::{Fault, answer};
use pc_app::serve;
use pc_ports::{Calls, Files, MemorySink, MemoryStore, put_all};
use std::alloc::Global;

/// The room of a sink of which a case tells none.
const ROOM: usize = 65_536;

/// The status of a call by itself whose answer was not written, as a command has it.
const WRITE_FAILED: u8 = 6;

/// What comes of a call.
#[derive(Drop)]
pub struct Outcome {
    /// The status that it ends with.
    pub status: u8,
    /// What it wrote.
    pub text: Vec<u8>,
}

/// What is called.
#[derive(Drop)]
enum Called {
    /// The whole program, with these words.
    Program(Vec<String>),
    /// The call of this name by itself, over the texts that the store holds.
    Alone(String),
}

/// What is called, and the store and the sink that it is called over.
#[derive(Drop)]
pub struct Call {
    called: Option<Called>,
    files: Files,
    failing_reads: Calls,
    room: usize,
    most: usize,
    failing_writes: Calls,
}

impl Call {
    /// A call without words and files, over a store that does not fail and a sink that takes all.
    pub fn new(alloc: Global) -> Call {
        Call {
            called: None,
            files: Files::new(alloc),
            failing_reads: Calls::new(alloc),
            room: ROOM,
            most: ROOM,
            failing_writes: Calls::new(alloc),
        }
    }

    /// Tells the words, parted by spaces; two quotation marks are the empty word.
    pub fn say(&mut self, alloc: Global, line: &str) -> Result<(), Fault> {
        let mut words = Vec::new(alloc);
        for word in line.split_whitespace() {
            let word = if word == "\"\"" { "" } else { word };
            words.push(String::from_str(alloc, word)?)?;
        }
        self.call(Called::Program(words))
    }

    /// Names a call by itself.
    pub fn name(&mut self, alloc: Global, name: &str) -> Result<(), Fault> {
        self.call(Called::Alone(String::from_str(alloc, name)?))
    }

    /// Tells what is called.
    fn call(&mut self, called: Called) -> Result<(), Fault> {
        match self.called.replace(called) {
            None => Ok(()),
            Some(_) => Err(Fault::Words),
        }
    }

    /// Puts a file into the store.
    pub fn hold(&mut self, name: String, text: Text) -> Result<(), Fault> {
        Ok(self.files.push((name, text.into_bytes()))?)
    }

    /// Follows a directive on the store or the sink, and says whether it was one.
    pub fn set(&mut self, directive: &str) -> Result<bool, Fault> {
        if let Some(number) = directive.strip_prefix("store fails at ") {
            self.failing_reads.push(number.parse()?)?;
        } else if let Some(number) = directive.strip_prefix("sink fails at ") {
            self.failing_writes.push(number.parse()?)?;
        } else if let Some(most) = directive.strip_prefix("sink takes ") {
            self.most = most.parse()?;
        } else if let Some(room) = directive.strip_prefix("sink has room for ") {
            self.room = room.parse()?;
        } else {
            return Ok(false);
        }
        Ok(true)
    }

    /// Makes the call.
    pub fn outcome(self, alloc: Global) -> Result<Outcome, Fault> {
        let Call {
            called,
            files,
            failing_reads,
            room,
            most,
            failing_writes,
        } = self;
        let Some(called) = called else {
            return Err(Fault::Words);
        };
        if most == 0 {
            return Err(Fault::Number);
        }
        let mut sink = MemorySink::new(alloc, room, most, failing_writes)?;
        let status = match called {
            Called::Program(words) => {
                let mut store = MemoryStore::new(files, failing_reads);
                program(alloc, words.as_slice(), &mut store, &mut sink)
            }
            Called::Alone(name) => alone(alloc, name.as_str(), &files, &failing_reads, &mut sink)?,
        };
        let text = Vec::from_slice(alloc, sink.written())?;
        Ok(Outcome { status, text })
    }
}

/// Calls the whole program. Nothing is asked of what it answers here: the cases ask it.
fn program(alloc: Global, words: &[String], store: &mut MemoryStore, sink: &mut MemorySink) -> u8 {
    serve(alloc, words, store, sink)
}

/// Makes the call of this name by itself, which reads no store, and writes what it answers.
fn alone(
    alloc: Global,
    name: &str,
    files: &Files,
    failing_reads: &Calls,
    sink: &mut MemorySink,
) -> Result<u8, Fault> {
    if failing_reads.len() != 0 {
        return Err(Fault::Directive);
    }
    match put_all(sink, answer(alloc, name, files)?.bytes()) {
        Ok(()) => Ok(0),
        Err(_) => Ok(WRITE_FAILED),
    }
}
