//! The texts of statements. Each takes its margin, the spaces before its first line.

ghost use Rattle.std.specs.Prelude.{◌≡◌, ◌+◌, ◌++◌, true, length, map, codes, OnOk, IfOk};
ghost use Rattle.pc_show.specs.Canonical as spec;
ghost use Rattle.pc_program.specs.Naming.{named_stmt, named_stmts};
ghost use Rattle.pc_show.specs.Pieces.{bytes_of, blanks};

use crate::showing::lines::{push_claim, push_set, push_tested, push_tried};
use pc_program::Stmt;
use pc_text::{Names, NoMemory, Text};
use std::alloc::Global;

/// The margin of the lines of a block: two spaces more.
fn deeper(alloc: Global, margin: &[u8]) -> Result<Text, NoMemory>
    requires { margin.now ≡ blanks (length margin.now) }
    ensures { IfOk result (λ inner. inner ≡ blanks (length margin.now + 2)) }
{
    let mut inner = Text::new(alloc);
    inner.push_all(margin)?;
    inner.push_all(b"  ")?;
    Ok(inner)
}

/// Appends the end of a block.
fn push_end(text: &mut Text, margin: &[u8]) -> Result<(), NoMemory>
    ensures { OnOk result (text.new ≡ text.old ++ (margin.now ++ codes "}")) }
{
    text.push_all(margin)?;
    text.push_all(b"}")
}

/// Appends a block.
#[cycle(blocks)]
fn push_block(
    alloc: Global,
    text: &mut Text,
    names: &Names,
    margin: &[u8],
    list: &[Stmt],
) -> Result<(), NoMemory>
    requires named { named_stmts (length names.now.names) list.now ≡ true }
    requires margin { margin.now ≡ blanks (length margin.now) }
    ensures { OnOk result (text.new ≡ text.old ++ (codes " {\n" ++ (bytes_of (spec.stmts_pieces names.now.names list.now (length margin.now + 2)) ++ (margin.now ++ codes "}")))) }
{
    let inner = deeper(alloc, margin)?;
    text.push_all(b" {\n")?;
    push_stmts(alloc, text, names, inner.bytes(), list)?;
    push_end(text, margin)
}

/// Appends the second block of an `if`, where it has statements.
#[cycle(blocks)]
fn push_else(
    alloc: Global,
    text: &mut Text,
    names: &Names,
    margin: &[u8],
    list: &[Stmt],
) -> Result<(), NoMemory>
    requires named { named_stmts (length names.now.names) list.now ≡ true }
    requires margin { margin.now ≡ blanks (length margin.now) }
    ensures { OnOk result (text.new ≡ text.old ++ bytes_of (spec.else_part (map (spec.stmt_pieces names.now.names) list.now) (length margin.now))) }
{
    match list {
        [] => Ok(()),
        _ => {
            text.push_all(b" else")?;
            push_block(alloc, text, names, margin, list)
        }
    }
}

/// Appends a statement.
#[cycle(blocks)]
fn push_stmt(
    alloc: Global,
    text: &mut Text,
    names: &Names,
    margin: &[u8],
    s: &Stmt,
) -> Result<(), NoMemory>
    requires named { named_stmt (length names.now.names) s.now ≡ true }
    requires margin { margin.now ≡ blanks (length margin.now) }
    ensures { OnOk result (text.new ≡ text.old ++ bytes_of (spec.stmt_pieces names.now.names s.now (length margin.now))) }
{
    match s {
        Stmt::Set { var, right, .. } => push_set(text, names, margin, *var, right),
        Stmt::If {
            test,
            then_part,
            else_part,
            ..
        } => {
            push_tested(text, names, margin, b"if", test)?;
            push_block(alloc, text, names, margin, then_part.as_slice())?;
            push_else(alloc, text, names, margin, else_part.as_slice())?;
            text.push_all(b"\n")
        }
        Stmt::While {
            test,
            tried,
            body,
            ..
        } => {
            push_tested(text, names, margin, b"while", test)?;
            push_tried(text, names, tried.as_slice())?;
            push_block(alloc, text, names, margin, body.as_slice())?;
            text.push_all(b"\n")
        }
        Stmt::Assert { all, .. } => push_claim(text, names, margin, b"assert", all.as_slice()),
        Stmt::Assume { all, .. } => push_claim(text, names, margin, b"assume", all.as_slice()),
    }
}

/// Appends statements, in order.
#[cycle(blocks)]
pub fn push_stmts(
    alloc: Global,
    text: &mut Text,
    names: &Names,
    margin: &[u8],
    list: &[Stmt],
) -> Result<(), NoMemory>
    requires named { named_stmts (length names.now.names) list.now ≡ true }
    requires margin { margin.now ≡ blanks (length margin.now) }
    ensures { OnOk result (text.new ≡ text.old ++ bytes_of (spec.stmts_pieces names.now.names list.now (length margin.now))) }
{
    for s in list {
        push_stmt(alloc, text, names, margin, s)?;
    }
    Ok(())
}
