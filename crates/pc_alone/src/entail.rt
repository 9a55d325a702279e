//! Which rows show which, and lists without needless rows.

use crate::elim::push_answer;
use crate::fault::Fault;
use crate::numbers::push_rows;
use crate::rows::push_word;
use crate::texts::{row_in, rows_in};
use pc_ports::Files;
use pc_rows::PREMISES;
use pc_text::Text;
use std::alloc::Global;

/// Whether two lists of rows together show a goal.
pub fn entails(alloc: Global, texts: &Files, text: &mut Text) -> Result<(), Fault> {
    let rows = rows_in(alloc, texts, "rows")?;
    let others = rows_in(alloc, texts, "others")?;
    let goal = row_in(alloc, texts, "goal")?;
    if PREMISES < rows.len() + others.len() {
        return Err(Fault::Number);
    }
    push_answer(text, pc_entail::entails(alloc, &rows, &others, &goal)?)
}

/// Whether rows are found to show all of the others.
pub fn shows_all(alloc: Global, texts: &Files, text: &mut Text) -> Result<(), Fault> {
    let rows = rows_in(alloc, texts, "rows")?;
    let others = rows_in(alloc, texts, "others")?;
    push_word(text, pc_entail::shows_all(alloc, &rows, &others)?)
}

/// Whether rows are found to contradict each other.
pub fn contradictory(alloc: Global, texts: &Files, text: &mut Text) -> Result<(), Fault> {
    let rows = rows_in(alloc, texts, "rows")?;
    push_word(text, pc_entail::contradictory(alloc, &rows)?)
}

/// The rows that are left where those go that the others show.
pub fn reduce(alloc: Global, texts: &Files, text: &mut Text) -> Result<(), Fault> {
    let rows = rows_in(alloc, texts, "rows")?;
    push_rows(text, &pc_entail::reduce(alloc, &rows)?)
}
