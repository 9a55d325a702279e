//! JSON as certificates.

ghost use Rattle.std.specs.Prelude.{◌≡◌, ◌≤◌};
ghost use Rattle.serde_json.specs.Data.{array, object};
ghost use Rattle.serde_json.specs.View.{view, items_view, members_view};
ghost use Rattle.pc_json.specs.Values.{of_all, of_alternative, of_certificate};
ghost use Rattle.pc_json.specs.Kept.{IsAlternative, AreAlternatives, IsKept};
ghost use Rattle.pc_json.specs.Keys.{of_body, of_head};
ghost use Rattle.pc_json.specs.Exactly.{IsExactly};
ghost use Rattle.pc_json.specs.Answers.{Means};

use crate::fault::JsonFault;
use crate::members::{Body, Head, body_of, head_of};
use crate::proofs::edges_of;
use crate::rows::points_of;
use crate::sizes::{Sizes, check_version, sizes_of};
use pc_certificate::{ALTERNATIVES, Annotated, Certificate};
use pc_rows::VARIABLES;
use serde_json::{Map, Value};
use sqlite_items::Items;
use std::alloc::Global;

/// The alternative for a graph of these sizes whose keys have the values.
fn of_parts(alloc: Global, body: Body, sizes: Sizes) -> Result<Annotated, JsonFault>
    requires { sizes.variables ≤ VARIABLES }
    ensures { IsExactly (IsAlternative sizes.points sizes.edges sizes.variables) (of_alternative sizes.variables) (of_body body) result }
{
    let rows = points_of(alloc, &body.rows, sizes.points, sizes.variables)?;
    let proofs = edges_of(alloc, &body.proofs, sizes.edges)?;
    Ok(Annotated { rows, proofs })
}

/// The alternative that has the members.
fn of_members(alloc: Global, map: Map<String, Value>, sizes: Sizes) -> Result<Annotated, JsonFault>
    requires { sizes.variables ≤ VARIABLES }
    ensures { IsExactly (IsAlternative sizes.points sizes.edges sizes.variables) (of_alternative sizes.variables) (object (members_view map.entries)) result }
{
    of_parts(alloc, body_of(map)?, sizes)
}

/// The alternative that has the value.
fn alternative_of(alloc: Global, value: Value, sizes: Sizes) -> Result<Annotated, JsonFault>
    requires { sizes.variables ≤ VARIABLES }
    ensures { IsExactly (IsAlternative sizes.points sizes.edges sizes.variables) (of_alternative sizes.variables) (view value) result }
{
    match value {
        Value::Object(map) => of_members(alloc, map, sizes),
        _ => Err(JsonFault::Value),
    }
}

/// The alternatives that have the values, at most [`ALTERNATIVES`].
fn alternatives_in(
    alloc: Global,
    list: Vec<Value>,
    sizes: Sizes,
) -> Result<Items<Annotated>, JsonFault>
    requires { sizes.variables ≤ VARIABLES }
    ensures { IsExactly (AreAlternatives sizes.points sizes.edges sizes.variables) (of_all (of_alternative sizes.variables)) (array (items_view list.items)) result }
{
    if ALTERNATIVES < list.len() {
        return Err(JsonFault::Value);
    }
    let mut list = list;
    let mut all = Items::new(alloc);
    // Each value is dropped as soon as it is read, which spares memory.
    'alternatives: while !list.is_empty() {
        let item = list.remove(0);
        let alternative = alternative_of(alloc, item, sizes)?;
        all.push(alternative)?;
    }
    Ok(all)
}

/// The alternatives that have the value.
fn alternatives_of(alloc: Global, value: Value, sizes: Sizes) -> Result<Items<Annotated>, JsonFault>
    requires { sizes.variables ≤ VARIABLES }
    ensures { IsExactly (AreAlternatives sizes.points sizes.edges sizes.variables) (of_all (of_alternative sizes.variables)) (view value) result }
{
    match value {
        Value::Array(list) => alternatives_in(alloc, list, sizes),
        _ => Err(JsonFault::Value),
    }
}

/// The certificate whose keys have the values.
fn of_values(alloc: Global, head: Head) -> Result<Certificate, JsonFault>
    ensures { IsExactly IsKept of_certificate (of_head head) result }
{
    check_version(&head.version)?;
    let sizes = sizes_of(&head)?;
    let mut head = head;
    let alternatives = alternatives_of(alloc, head.alternatives.take(), sizes)?;
    Ok(Certificate {
        points: sizes.points,
        edges: sizes.edges,
        variables: sizes.variables,
        alternatives,
    })
}

/// The certificate that has the members.
fn of_all_members(alloc: Global, map: Map<String, Value>) -> Result<Certificate, JsonFault>
    ensures { IsExactly IsKept of_certificate (object (members_view map.entries)) result }
{
    of_values(alloc, head_of(map)?)
}

/// The certificate that has the value.
fn certificate_of(alloc: Global, value: Value) -> Result<Certificate, JsonFault>
    ensures { IsExactly IsKept of_certificate (view value) result }
{
    match value {
        Value::Object(map) => of_all_members(alloc, map),
        _ => Err(JsonFault::Value),
    }
}

/// The certificate that the bytes say in JSON.
///
/// `Json` exactly where `serde_json` reads the bytes as no value: there must be one value, and
/// nothing but white space round it. `Value` exactly where it reads one that is that of no
/// certificate. Which texts are read as one value is `serde_json`'s own matter: keys stand in any
/// order, of a key that stands twice the last value counts, and numbers such as `2.0` are no counts.
pub fn read_json(alloc: Global, src: &[u8]) -> Result<Certificate, JsonFault>
    ensures { Means src.now result }
{
    match Value::from_slice(alloc, src) {
        Ok(value) => certificate_of(alloc, value),
        Err(error) => Err(if error.is_memory() {
            JsonFault::NoMemory
        } else {
            JsonFault::Json
        }),
    }
}
