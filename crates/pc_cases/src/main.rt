//! `pc_cases`: runs the cases of `data` and prints the title of each that holds.
//!
//! The head of `data/index` tells how a case is written.
#![tactic(auto)]

mod block;
mod call;
mod files;
mod reader;
mod report;
mod text;

use crate::files::text_of;
use crate::reader::{cases_of, is_aside};
use crate::report::Report;
use pc_ports::{HostStore, Store};
use std::io;
use std::process::ExitCode;

/// The file that lists the files of cases.
const INDEX: &str = "index";

/// Runs all cases. The status is 1 where one fails, and where a file is not understood.
fn main(rt: HostRuntime) -> io::Result<ExitCode> {
    let mut store = HostStore::new(&rt);
    let mut report = Report::new();
    run_index(&rt, &mut store, &mut report)?;
    report.end(&rt)
}

/// Runs the cases of all files of the index.
fn run_index<S: Store>(
    rt: &(impl Print + AllocGlobal),
    store: &mut S,
    report: &mut Report,
) -> io::Result<()> {
    let index = match text_of(rt.alloc(), store, INDEX) {
        Ok(index) => index,
        Err(fault) => return report.refuse(rt, INDEX, 1, fault),
    };
    let mut line: usize = 0;
    for name in index.as_str().split('\n') {
        line = line.saturating_add(1);
        if !is_aside(name) {
            run_file(rt, store, report, line, name)?;
        }
    }
    Ok(())
}

/// Runs the cases of the file that this line of the index names.
fn run_file<S: Store>(
    rt: &(impl Print + AllocGlobal),
    store: &mut S,
    report: &mut Report,
    line: usize,
    name: &str,
) -> io::Result<()> {
    match text_of(rt.alloc(), store, name) {
        Ok(text) => run_text(rt, store, report, name, text.as_str()),
        Err(fault) => report.refuse(rt, INDEX, line, fault),
    }
}

/// Runs the cases of a file's text.
fn run_text<S: Store>(
    rt: &(impl Print + AllocGlobal),
    store: &mut S,
    report: &mut Report,
    name: &str,
    text: &str,
) -> io::Result<()> {
    let cases = match cases_of(rt.alloc(), store, text) {
        Ok(cases) => cases,
        Err(misread) => return report.refuse(rt, name, misread.line, misread.fault),
    };
    for case in cases {
        report.run(rt, name, case)?;
    }
    Ok(())
}
