//! Graphs of programs.

ghost use Rattle.std.specs.Prelude.{◌<◌, length};

use crate::fault::Fault;
use crate::numbers::{push_number, push_row, push_rows};
use crate::texts::bytes_in;
use pc_flow::{Graph, What};
use pc_language::Bound;
use pc_ports::Files;
use pc_rows::{Row, Rows};
use pc_text::{Place, Text};
use std::alloc::Global;

/// The points and edges of the program that the text `source` spells.
pub fn graph(alloc: Global, texts: &Files, text: &mut Text) -> Result<(), Fault> {
    let graph = graph_in(alloc, texts)?;
    push_graph(text, &graph)
}

/// The graph of the program that the text `source` spells.
pub fn graph_in(alloc: Global, texts: &Files) -> Result<Graph, Fault> {
    match pc_syntax::read(alloc, bytes_in(texts, "source")?) {
        Ok(program) => Ok(pc_graph::lower(alloc, &program)?),
        Err(_) => Err(Fault::Textless),
    }
}

/// Adds the points and edges of a graph.
fn push_graph(text: &mut Text, graph: &Graph) -> Result<(), Fault> {
    for p in 0..graph.points() {
        push_point(text, graph, p)?;
    }
    for i in 0..graph.edges() {
        push_edge(text, graph, i)?;
    }
    Ok(())
}

/// Adds a point: its place, and at a head what its loop tries.
fn push_point(text: &mut Text, graph: &Graph, p: u32) -> Result<(), Fault>
    requires { p < length graph.now.points }
{
    text.push_all(b"point")?;
    push_number(text, p as i128)?;
    push_place(text, graph.place(p))?;
    text.push_all(if graph.is_head(p) { b" head\n" } else { b"\n" })?;
    push_rows(text, graph.tried(p))
}

/// Adds the line and the column of a place.
fn push_place(text: &mut Text, place: Place) -> Result<(), Fault> {
    push_number(text, place.line as i128)?;
    text.push(b':')?;
    Ok(text.push_number(place.column as i128)?)
}

/// Adds an edge: the points that it leaves and reaches, what it does, and its rows.
fn push_edge(text: &mut Text, graph: &Graph, i: u32) -> Result<(), Fault>
    requires { i < length graph.now.edges }
{
    let edge = graph.edge(i);
    text.push_all(b"edge")?;
    push_number(text, i as i128)?;
    push_number(text, edge.from as i128)?;
    push_number(text, edge.to as i128)?;
    text.push_all(if graph.is_body(i) { b" body" } else { b"" })?;
    push_what(text, &edge.what)
}

/// Adds what an edge does, and its rows.
fn push_what(text: &mut Text, what: &What) -> Result<(), Fault> {
    match what {
        What::Enter { params } => push_enter(text, *params),
        What::Set { var, form, lo, hi } => push_set(text, *var, form, (lo, hi)),
        What::Test(rows) => push_under(text, b" test\n", rows),
        What::Check(rows) => push_under(text, b" check\n", rows),
    }
}

/// Adds the end of a line and, under it, rows.
fn push_under(text: &mut Text, end: &[u8], rows: &Rows) -> Result<(), Fault> {
    text.push_all(end)?;
    push_rows(text, rows)
}

/// Adds an entry: the number of parameters.
fn push_enter(text: &mut Text, params: u32) -> Result<(), Fault> {
    text.push_all(b" enter")?;
    push_number(text, params as i128)?;
    Ok(text.push(b'\n')?)
}

/// Adds an assignment: its variable, the ends of its choice, and its form.
fn push_set(
    text: &mut Text,
    variable: u32,
    form: &Row,
    ends: (&Bound, &Bound),
) -> Result<(), Fault> {
    text.push_all(b" set")?;
    push_number(text, variable as i128)?;
    push_end(text, ends.0)?;
    push_end(text, ends.1)?;
    text.push(b'\n')?;
    push_row(text, form)
}

/// Adds an end of a choice; a star is an open one.
fn push_end(text: &mut Text, end: &Bound) -> Result<(), Fault> {
    match end {
        Bound::At(number) => push_number(text, *number),
        Bound::Open => Ok(text.push_all(b" *")?),
    }
}
