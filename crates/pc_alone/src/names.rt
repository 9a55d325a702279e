//! The names of the calls.

use crate::fault::Fault;
use crate::texts::bytes_in;
use crate::{assignment, elim, entail, graph, lower, points, rows, simplex, tokens};
use pc_ports::Files;
use pc_text::Text;
use std::alloc::Global;

/// What the call of this name answers, as a text.
pub fn answer(alloc: Global, name: &str, texts: &Files) -> Result<Text, Fault> {
    let mut text = Text::new(alloc);
    of_programs(alloc, name, texts, &mut text)?;
    Ok(text)
}

/// Adds what a call on a program or on bytes answers.
fn of_programs(alloc: Global, name: &str, texts: &Files, text: &mut Text) -> Result<(), Fault> {
    match name {
        "tokens" => tokens::tokens(alloc, texts, text),
        "graph" => graph::graph(alloc, texts, text),
        "candidate" => lower::candidate(alloc, texts, text),
        "put_all" => Ok(text.push_all(bytes_in(texts, "bytes")?)?),
        _ => of_rows(alloc, name, texts, text),
    }
}

/// Adds what a call on rows answers.
fn of_rows(alloc: Global, name: &str, texts: &Files, text: &mut Text) -> Result<(), Fault> {
    match name {
        "sum" => rows::sum(alloc, texts, text),
        "minus" => rows::minus(alloc, texts, text),
        "scaled" => rows::scaled(alloc, texts, text),
        "negated" => rows::negated(alloc, texts, text),
        "with" => rows::with(alloc, texts, text),
        "terms" => rows::terms(alloc, texts, text),
        "substitute" => assignment::substitute(alloc, texts, text),
        "sign_at" => points::sign_at(alloc, texts, text),
        _ => of_lists(alloc, name, texts, text),
    }
}

/// Adds what a call on lists of rows answers.
fn of_lists(alloc: Global, name: &str, texts: &Files, text: &mut Text) -> Result<(), Fault> {
    match name {
        "decide" => elim::decide(alloc, texts, text),
        "search" => simplex::search(alloc, texts, text),
        "covered" => rows::covered(alloc, texts, text),
        "join" => rows::join(alloc, texts, text),
        "entails" => entail::entails(alloc, texts, text),
        "shows_all" => entail::shows_all(alloc, texts, text),
        "contradictory" => entail::contradictory(alloc, texts, text),
        "reduce" => entail::reduce(alloc, texts, text),
        "narrow" => lower::narrow(alloc, texts, text),
        _ => Err(Fault::Directive),
    }
}
