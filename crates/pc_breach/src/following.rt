//! A row that is not met is followed to an assertion that fails.

ghost use Rattle.std.specs.Prelude.{◌≡◌, ◌<◌, ◌++◌, length, IfOk, OnOk, option_to_list};
ghost use Rattle.std.specs.List.{AllByRecursion as Each};
ghost use Rattle.pc_flow.specs.Annotation.{rows_at};
ghost use Rattle.pc_flow.specs.Shape.{NoHeads};
ghost use Rattle.pc_lower.specs.Annotation.{no_rows};
ghost use Rattle.pc_lower.specs.Operations.{Fits, operations};
ghost use Rattle.pc_breach.specs.Answers.{needed};
ghost use Rattle.pc_breach.specs.Following.{followed};

use crate::step::{Step, step_from};
use pc_flow::{Annotation, Graph};
use pc_rows::{NoMemory, Row};
use sqlite_items::Items;
use std::alloc::Global;

/// The choices by which row `r` is followed from the entry. No walk has more edges than there are points.
pub fn followed(
    alloc: Global,
    g: &Graph,
    rows: &Annotation,
    r: Row,
) -> Result<Items<i128>, NoMemory>
    requires heads { NoHeads g.now.points }
    requires long { length rows.now ≡ length g.now.points }
    requires need { rows.now ≡ needed g.now }
    requires fit { Each Fits (operations g.now (no_rows g.now.points)) }
    ensures { IfOk result (λ cs. cs ≡ followed g.now.edges (rows_at rows.now) (length g.now.points) 0 r) }
{
    // what a graph keeps
    let _points = g.points();
    let mut choices = Items::new(alloc);
    let mut p = 0;
    let mut row = r;
    for _k in 0..g.points() {
        let Some(step) = step_from(g, rows, p, &row) else {
            return Ok(choices);
        };
        let Step {
            choice,
            to,
            row: next,
        } = step;
        give(&mut choices, choice)?;
        let Some(next) = next else {
            return Ok(choices);
        };
        p = to;
        row = next;
    }
    Ok(choices)
}

/// Puts a choice behind the others, if there is one.
fn give(choices: &mut Items<i128>, choice: Option<i128>) -> Result<(), NoMemory>
    ensures { OnOk result (choices.new ≡ choices.old ++ option_to_list choice) }
{
    if let Some(c) = choice {
        if choices.push(c).is_err() {
            return Err(NoMemory);
        }
    }
    Ok(())
}
