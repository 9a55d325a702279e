//! The lines of a text, one after another, and what they say.

ghost use Rattle.std.specs.Prelude.{◌≡◌, ◌≤◌, ◌<◌, ◌^◌, length, IfOk, ◌-◌};
ghost use Rattle.pc_lines.specs.Answers.{Reads, ReadsLine, Ends};
ghost use Rattle.pc_lines.specs.Forms.{number_at};
ghost use Rattle.pc_lines.specs.Kinds as kind;
ghost use Rattle.pc_lines.specs.Readers as spec;
ghost use Rattle.pc_rows.specs.declared.system.TheConstants.{PREMISES};

use crate::fault::CertFault;
use crate::sizes::Sizes;
use crate::{heads, proof_lines, row_lines};
use pc_rows::{Proof, Row, VARIABLES};
use pc_text::Lines;
use std::alloc::Global;
use std::marker::Model;

/// What is left of a text.
#[derive(Drop)]
pub struct Reader<'a> {
    lines: Lines<'a>,
    next: u32,
}

impl<'a> Model for Reader<'a> {
    ghost use Rattle.pc_lines.specs.Readers.{Unread, unread, IsPlaced};

    ghost Value = { Unread };

    ghost view = { λ r. unread r.lines };

    ghost invariant = { λ r. IsPlaced r.lines r.next };
}

impl<'a> Reader<'a> {
    /// The lines of a text, from line 1 on.
    pub fn new(src: &'a [u8]) -> Reader<'a>
        requires { length src.now < 2 ^ 32 - 1 }
        ensures { result ≡ spec.unread (record { rest = src.now; number = 1 }) }
    {
        Reader {
            lines: Lines::new(src),
            next: 1,
        }
    }

    /// The next line and its number. `Form` where there is none, or no line feed ends it.
    pub fn line(&mut self) -> Result<(u32, &'a [u8]), CertFault>
        ensures { ReadsLine (spec.take_line self.old) self.old.number result self.new }
    {
        let Some((number, line, ended)) = self.lines.next() else {
            return Err(CertFault::Form(self.next));
        };
        self.next = number + 1;
        if ended {
            Ok((number, line))
        } else {
            Err(CertFault::Form(number))
        }
    }

    /// Checks that the next line is this text.
    pub fn just(&mut self, text: &[u8]) -> Result<(), CertFault>
        ensures { Reads (spec.read_line (kind.just text.now) (λ _. tt) self.old) result self.new }
    {
        let (number, line) = self.line()?;
        heads::just(line, text, number)
    }

    /// The numbers of points, edges and variables, each within its limit.
    pub fn sizes(&mut self, most: Sizes) -> Result<Sizes, CertFault>
        requires { kind.AreSmall most }
        ensures reads { Reads (spec.read_line (kind.graph most) kind.sizes_of self.old) result self.new }
        ensures variables { IfOk result (λ sizes. sizes.variables ≤ most.variables) }
    {
        let (number, line) = self.line()?;
        heads::sizes(line, most, number)
    }

    /// How many lines belong to the next one, which is to have this name and this running number;
    /// at most so many.
    pub fn head(&mut self, name: &[u8], running: u32, most: usize) -> Result<usize, CertFault>
        requires running { running < 2 ^ 32 - 1 }
        requires most { most < 2 ^ 32 - 1 }
        ensures reads { Reads (spec.read_line (kind.head name.now running most) (number_at 2) self.old) result self.new }
        ensures few { IfOk result (λ count. count ≤ most) }
    {
        let (number, line) = self.line()?;
        heads::head(line, name, running, most, number)
    }

    /// A row over so many variables.
    pub fn row(&mut self, alloc: Global, variables: u32) -> Result<Row, CertFault>
        requires { variables ≤ VARIABLES }
        ensures { Reads (spec.row_reader variables self.old) result self.new }
    {
        let (number, line) = self.line()?;
        row_lines::row(alloc, line, variables, number)
    }

    /// A proof that names some of so many premises.
    pub fn proof(&mut self, alloc: Global, premises: u32) -> Result<Proof, CertFault>
        requires { premises ≤ PREMISES }
        ensures { Reads (spec.proof_reader premises self.old) result self.new }
    {
        let (number, line) = self.line()?;
        proof_lines::proof(alloc, line, premises, number)
    }

    /// Checks that nothing is left. `Trailing` where something is.
    pub fn end(self) -> Result<(), CertFault>
        ensures { Ends self.entry result }
    {
        let Reader { mut lines, .. } = self;
        match lines.next() {
            None => Ok(()),
            Some((number, _, _)) => Err(CertFault::Trailing(number)),
        }
    }
}
