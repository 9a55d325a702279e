//! From programs to their canonical texts.

ghost use Rattle.std.specs.Prelude.{◌≡◌, ◌≤◌, ◌++◌, length, drop, take, codes, OnOk, IfOk};
ghost use Rattle.pc_show.specs.Canonical as spec;
ghost use Rattle.pc_show.specs.Pieces.{bytes_of};

mod compares;
mod exprs;
mod level;
mod lines;
mod names;
mod rights;
mod stmts;

use crate::showing::names::push_names;
use crate::showing::stmts::push_stmts;
use pc_program::Program;
use pc_text::{Names, NoMemory, Text};
use std::alloc::Global;

/// Appends the first line.
fn push_entry(text: &mut Text, names: &Names) -> Result<(), NoMemory>
    requires { names.now.params ≤ length names.now.names }
    ensures { OnOk result (text.new ≡ text.old ++ (codes "entry (" ++ (bytes_of (spec.names_pieces (take names.now.params names.now.names)) ++ codes ") {\n"))) }
{
    text.push_all(b"entry (")?;
    push_names(text, names, 0, names.params())?;
    text.push_all(b") {\n")
}

/// Appends the line of the locals, if there are any.
fn push_locals(text: &mut Text, names: &Names) -> Result<(), NoMemory>
    requires { names.now.params ≤ length names.now.names }
    ensures { OnOk result (text.new ≡ text.old ++ bytes_of (spec.locals_pieces (drop names.now.params names.now.names))) }
{
    if names.params() == names.len() {
        return Ok(());
    }
    text.push_all(b"  var ")?;
    push_names(text, names, names.params(), names.len())?;
    text.push_all(b";\n")
}

/// The canonical text of a program: one statement a line, two spaces a level of nesting, and no
/// parentheses but those that are needed. It refuses for want of memory alone.
pub fn show(alloc: Global, p: &Program) -> Result<Text, NoMemory>
    ensures { IfOk result (λ text. text ≡ spec.program_text p.now.names p.now.body) }
{
    let mut text = Text::new(alloc);
    push_entry(&mut text, &p.names)?;
    push_locals(&mut text, &p.names)?;
    push_stmts(alloc, &mut text, &p.names, b"  ", p.body.as_slice())?;
    text.push_all(b"}\n")?;
    Ok(text)
}
