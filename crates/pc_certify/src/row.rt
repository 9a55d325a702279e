//! The proof of a row that an edge has to show.

ghost use Rattle.std.specs.Prelude.{◌≡◌, true, false};
ghost use Rattle.pc_rows.specs.Joins.{is_covered};
ghost use Rattle.pc_flow.specs.Carry.{back, premises};
ghost use Rattle.pc_certify.specs.Proving.{SearchedIs, RowIs};

use crate::cover::covered;
use crate::origin::Origin;
use pc_entail::{Answer, entails};
use pc_flow::back;
use pc_rows::{NoMemory, Past, Proof, Row, Rows};
use std::alloc::Global;

/// The proof of a row at the target of an edge, or of an assertion's own row, from the premises of
/// the edge.
pub fn row_proof(alloc: Global, origin: &Origin, r: &Row) -> Result<Option<Proof>, NoMemory>
    requires { let w = origin.now.edge.now.what in origin.now.head ≡ false → is_covered (back w r.now) (premises w origin.now.rows.now) ≡ true }
    ensures { let w = origin.now.edge.now.what in RowIs origin.now.head w (premises w origin.now.rows.now) r.now result }
{
    let goal = match back(origin.edge, r) {
        Ok(goal) => goal,
        Err(Past) => return Ok(None),
    };
    let negated = match goal.negated() {
        Ok(negated) => negated,
        Err(Past) => return Ok(None),
    };
    if origin.head {
        searched(alloc, origin, &goal)
    } else {
        covered(alloc, origin, &goal, &negated)
    }
}

/// The proof of a goal that is looked for. Nothing only where the question is not modest, or where
/// no multipliers show the goal.
fn searched(alloc: Global, origin: &Origin, goal: &Row) -> Result<Option<Proof>, NoMemory>
    ensures { SearchedIs (premises origin.now.edge.now.what origin.now.rows.now) goal.now result }
{
    let none = Rows::new(alloc);
    let test = origin.edge.test_rows(&none);
    // its length tells that the list is within its limit
    let _most = origin.rows.len();
    match entails(alloc, origin.rows, test, goal)? {
        Answer::Shown(proof) => Ok(Some(proof)),
        Answer::Point(_) => Ok(None),
        Answer::Unsettled => Ok(None),
    }
}
