//! What is enough at the entry, as a condition of one line.

ghost use Rattle.std.specs.Prelude.{◌≡◌, ◌≤◌, ◌++◌, ◌∷◌, [], length, All, IfOk, OnOk};
ghost use Rattle.pc_rows.specs.Linear.{IsOver};
ghost use Rattle.pc_condition.specs.Conditions.{condition_text};
ghost use Rattle.pc_facts.specs.Quick.{is_false, over_parameters, alternatives, Suffice, IsQuick};

use pc_condition::{push_line, push_what};
use pc_domain::Backward;
use pc_fixpoint::entry_condition;
use pc_flow::Graph;
use pc_rows::Row;
use pc_text::{Names, NoMemory, Text};
use sqlite_items::Items;
use std::alloc::Global;

/// A condition of one line: the rows that a domain gives for the entry, over the parameters, or `false` where there is one row and no
/// state meets it. No walk from an entry state that meets the condition comes to an assertion that does not hold.
pub fn show_quick<B: Backward>(alloc: Global, g: &Graph, names: &Names) -> Result<Text, NoMemory>
    requires { g.now.params ≤ length names.now.names }
    ensures { IfOk result (IsQuick B.Backward g.now names.now.names) }
{
    let rows = entry_rows::<B>(alloc, g)?;
    let over = over_parameters(alloc, rows.as_slice(), g.params())?;
    condition_of(alloc, &over, names)
}

/// The rows that a domain gives for the entry.
fn entry_rows<B: Backward>(alloc: Global, g: &Graph) -> Result<Items<Row>, NoMemory>
    ensures { IfOk result (Suffice B.Backward g.now) }
{
    match entry_condition::<B>(alloc, g) {
        Ok(rows) => Ok(rows),
        Err(pc_domain::NoMemory) => Err(NoMemory),
    }
}

/// The rows, where all variables from number `params` on are 0.
fn over_parameters(alloc: Global, rows: &[Row], params: u32) -> Result<Items<Row>, NoMemory>
    ensures { IfOk result (λ over. over ≡ over_parameters params rows.now) }
{
    let mut over = Items::new(alloc);
    for r in rows {
        add(&mut over, r.first(params))?;
    }
    Ok(over)
}

fn add(over: &mut Items<Row>, r: Row) -> Result<(), NoMemory>
    ensures { OnOk result (over.new ≡ over.old ++ r ∷ []) }
{
    match over.push(r) {
        Ok(()) => Ok(()),
        Err(_) => Err(NoMemory),
    }
}

/// Whether there is one row, and no state meets it.
fn is_false(rows: &[Row]) -> bool
    ensures { result ≡ is_false rows.now }
{
    match rows {
        [r] => r.is_number() && r.constant() < 0,
        _ => false,
    }
}

/// The condition of rows over the parameters.
fn condition_of(alloc: Global, rows: &Items<Row>, names: &Names) -> Result<Text, NoMemory>
    requires { All (IsOver (length names.now.names)) rows.now }
    ensures { IfOk result (λ text. text ≡ condition_text names.now.names (alternatives rows.now)) }
{
    let mut text = Text::new(alloc);
    if is_false(rows.as_slice()) {
        push_what(&mut text, b"suffices: ", b"false")?;
    } else {
        push_line(alloc, &mut text, b"suffices: ", rows, names)?;
    }
    Ok(text)
}
