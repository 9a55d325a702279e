//! What is printed of the cases that were run.

use crate::block::Case;
use crate::call::Outcome;
use pc_alone::Fault;
use std::process::ExitCode;
use std::{io, str};

/// How many cases were run, and how many of them failed.
#[derive(Drop)]
pub struct Report {
    run: u64,
    failed: u64,
}

impl Report {
    /// No case was run.
    pub fn new() -> Report {
        Report { run: 0, failed: 0 }
    }

    /// Runs a case of this file, and prints its title, or what was wanted and what came.
    pub fn run(
        &mut self,
        rt: &(impl Print + AllocGlobal),
        file: &str,
        case: Case,
    ) -> io::Result<()> {
        self.run = self.run.saturating_add(1);
        match case.call.outcome(rt.alloc()) {
            Err(fault) => self.refuse(rt, file, case.line, fault),
            Ok(came) if is_same(&came, &case.wanted) => rt.println(case.title.as_str()),
            Ok(came) => {
                self.failed = self.failed.saturating_add(1);
                println!(rt; "{file}:{}: {}", case.line, case.title)?;
                print_outcome(rt, "wanted", &case.wanted)?;
                print_outcome(rt, "got", &came)
            }
        }
    }

    /// Prints where a file is not understood, and why.
    pub fn refuse(
        &mut self,
        rt: &impl Print,
        file: &str,
        line: usize,
        fault: Fault,
    ) -> io::Result<()> {
        self.failed = self.failed.saturating_add(1);
        println!(rt; "{file}:{line}: {}", fault.told())
    }

    /// Prints the counts. The status is 1 where something failed.
    pub fn end(self, rt: &impl Print) -> io::Result<ExitCode> {
        println!(rt; "{} cases, {} failed", self.run, self.failed)?;
        Ok(ExitCode::from(if self.failed == 0 { 0 } else { 1 }))
    }
}

/// Whether two calls ended alike.
fn is_same(one: &Outcome, other: &Outcome) -> bool {
    one.status == other.status && one.text.as_slice() == other.text.as_slice()
}

/// Prints the status and the text, with an empty line behind it where it ends with a line feed.
fn print_outcome(rt: &impl Print, name: &str, outcome: &Outcome) -> io::Result<()> {
    let text = str::from_utf8(outcome.text.as_slice()).unwrap_or("bytes that are no text");
    println!(rt; "{name} {}", outcome.status)?;
    rt.println(text)
}
