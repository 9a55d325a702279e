//! Files of cases: blocks that end with empty lines.

use crate::block::{Block, Case};
use pc_alone::Fault;
use pc_ports::Store;
use std::alloc::Global;

/// Where a text is not understood, and why.
#[derive(Clone, Copy)]
pub struct Misread {
    /// The line, counted from 1.
    pub line: usize,
    /// The reason.
    pub fault: Fault,
}

/// The cases of a text, in order. The store is where texts of blocks are copied from.
pub fn cases_of<S: Store>(alloc: Global, store: &mut S, text: &str) -> Result<Vec<Case>, Misread> {
    let mut reader = Reader::new(alloc);
    for line in text.split('\n') {
        if let Err(fault) = reader.take(alloc, store, line) {
            return Err(Misread {
                line: reader.line,
                fault,
            });
        }
    }
    reader.into_cases()
}

/// A text of which some lines were read.
#[derive(Drop)]
struct Reader {
    line: usize,
    cases: Vec<Case>,
    open: Option<Block>,
}

impl Reader {
    /// No line was read.
    fn new(alloc: Global) -> Reader {
        Reader {
            line: 0,
            cases: Vec::new(alloc),
            open: None,
        }
    }

    /// Takes the next line.
    fn take<S: Store>(&mut self, alloc: Global, store: &mut S, line: &str) -> Result<(), Fault> {
        self.line = self.line.saturating_add(1);
        match self.open.take() {
            None => self.open = begun(alloc, self.line, line)?,
            Some(block) if line == "" => self.cases.push(block.into_case()?)?,
            Some(mut block) => {
                block.take(alloc, store, line)?;
                self.open = Some(block);
            }
        }
        Ok(())
    }

    /// The cases, once all lines were taken.
    fn into_cases(self) -> Result<Vec<Case>, Misread> {
        match self.open {
            None => Ok(self.cases),
            Some(_) => Err(Misread {
                line: self.line,
                fault: Fault::Unended,
            }),
        }
    }
}

/// The block that a line outside of blocks begins.
fn begun(alloc: Global, number: usize, line: &str) -> Result<Option<Block>, Fault> {
    if let Some(title) = line.strip_prefix("== ") {
        return Ok(Some(Block::new(alloc, number, title)?));
    }
    if is_aside(line) {
        return Ok(None);
    }
    Err(Fault::Outside)
}

/// Whether a line is empty or a comment.
pub fn is_aside(line: &str) -> bool {
    line == "" || line.strip_prefix("#").is_some()
}
