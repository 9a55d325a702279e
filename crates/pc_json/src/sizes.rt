//! The sizes that a certificate names.

ghost use Rattle.std.specs.Prelude.{◌≤◌, ◌<◌, ◌^◌};
ghost use Rattle.serde_json.specs.View.{view};
ghost use Rattle.pc_json.specs.Values.{of_count, version};
ghost use Rattle.pc_json.specs.Exactly.{IsExactly};
ghost use Rattle.pc_json.specs.Named.{IsWithin, of_sizes, sizes_in};

use crate::fault::JsonFault;
use crate::members::Head;
use crate::numbers::count_of;
use pc_certificate::{EDGES, POINTS};
use pc_rows::VARIABLES;
use serde_json::Value;

/// The version of the format.
const VERSION: u32 = 2;

/// The numbers of points, edges and variables of a graph.
#[derive(Clone, Copy, Debug, PartialEq, Eq)]
pub(crate) struct Sizes {
    pub points: u32,
    pub edges: u32,
    pub variables: u32,
}

/// The count, which is at most `most`.
fn count_within(value: &Value, most: u32) -> Result<u32, JsonFault>
    requires { most < 2 ^ 32 }
    ensures { IsExactly (λ n. n ≤ most) of_count (view value.now) result }
{
    let count = count_of(value)?;
    if count <= most {
        Ok(count)
    } else {
        Err(JsonFault::Value)
    }
}

/// Checks that the value is the version of the format.
pub(crate) fn check_version(value: &Value) -> Result<(), JsonFault>
    ensures { IsExactly (λ _. Unit {0}) (λ _. of_count version) (view value.now) result }
{
    let count = count_of(value)?;
    if count == VERSION {
        Ok(())
    } else {
        Err(JsonFault::Value)
    }
}

/// The sizes that the values at the keys are, within the limits.
pub(crate) fn sizes_of(head: &Head) -> Result<Sizes, JsonFault>
    ensures { IsExactly IsWithin of_sizes (sizes_in head.now) result }
{
    let points = count_within(&head.points, POINTS)?;
    let edges = count_within(&head.edges, EDGES)?;
    let variables = count_within(&head.variables, VARIABLES as u32)?;
    Ok(Sizes {
        points,
        edges,
        variables,
    })
}
