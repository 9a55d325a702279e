//! Rows at the entry, over the parameters alone.

ghost use Rattle.std.specs.Prelude.{◌≡◌, Some, map, IfOk};
ghost use Rattle.pc_rows.specs.Linear.{first_of};
ghost use Rattle.pc_back.specs.Needs.{EntryIs};

use crate::need::{Need, never};
use pc_domain::NoMemory;
use pc_entail::reduce;
use pc_rows::{Row, Rows};
use sqlite_items::Items;
use std::alloc::Global;

/// The rows of a value at the entry, where the variables from number `params` on are 0: without these variables, and without
/// what the others show.
pub fn entry_rows(alloc: Global, need: &Need, params: u32) -> Result<Rows, NoMemory>
    ensures { IfOk result (EntryIs need.now params) }
{
    match &need.rows {
        Some(rows) => reduced(alloc, rows, params),
        None => never(alloc),
    }
}

/// The rows without the variables from number `params` on, and without what the others show.
fn reduced(alloc: Global, rows: &Rows, params: u32) -> Result<Rows, NoMemory>
    ensures { IfOk result (EntryIs (Some rows.now) params) }
{
    match reduce(alloc, &first(alloc, rows, params)?) {
        Ok(rows) => Ok(rows),
        Err(_) => Err(NoMemory),
    }
}

/// The rows without the variables from number `params` on.
fn first(alloc: Global, rows: &Rows, params: u32) -> Result<Rows, NoMemory>
    ensures { IfOk result (λ new. new ≡ map (first_of params) rows.now) }
{
    let mut new = Rows::new(alloc);
    for i in 0..rows.len() {
        if new.push(rows.at(i).first(params)).is_err() {
            return Err(NoMemory);
        }
    }
    Ok(new)
}

/// The rows as a list without a limit.
pub fn listed(alloc: Global, rows: &Rows) -> Result<Items<Row>, NoMemory>
    ensures { IfOk result (λ items. items ≡ rows.now) }
{
    let mut items = Items::new(alloc);
    for i in 0..rows.len() {
        items.push(rows.at(i).copy())?;
    }
    Ok(items)
}
