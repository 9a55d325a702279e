//! The values at the keys of objects.

ghost use Rattle.serde_json.specs.Data.{object};
ghost use Rattle.serde_json.specs.View.{view, members_view};
ghost use Rattle.pc_json.specs.Keys.{StartsWith, IsBody, IsHead};

use crate::fault::JsonFault;
use serde_json::{Map, Value};

/// The values at the keys of an alternative.
#[derive(Drop)]
pub(crate) struct Body {
    pub proofs: Value,
    pub rows: Value,
}

/// The values at the keys of a certificate.
#[derive(Drop)]
pub(crate) struct Head {
    pub alternatives: Value,
    pub edges: Value,
    pub points: Value,
    pub variables: Value,
    pub version: Value,
}

/// Takes the value of the first member, which is to have this key. The keys of a map rise, so that
/// they are taken in their order.
fn take(map: &mut Map<String, Value>, key: &str) -> Result<Value, JsonFault>
    ensures { StartsWith (members_view map.old.entries) key.now result (members_view map.new.entries) }
{
    match map.pop_first() {
        Some((name, value)) if name.as_str() == key => Ok(value),
        _ => Err(JsonFault::Value),
    }
}

/// The values at the keys of an alternative, which has no others.
pub(crate) fn body_of(mut map: Map<String, Value>) -> Result<Body, JsonFault>
    ensures { IsBody (object (members_view map.entries)) result }
{
    let proofs = take(&mut map, "proofs")?;
    let rows = take(&mut map, "rows")?;
    if map.is_empty() {
        Ok(Body { proofs, rows })
    } else {
        Err(JsonFault::Value)
    }
}

/// The values at the keys of a certificate, which has no others.
pub(crate) fn head_of(mut map: Map<String, Value>) -> Result<Head, JsonFault>
    ensures { IsHead (object (members_view map.entries)) result }
{
    let alternatives = take(&mut map, "alternatives")?;
    let edges = take(&mut map, "edges")?;
    let points = take(&mut map, "points")?;
    let variables = take(&mut map, "variables")?;
    let version = take(&mut map, "version")?;
    if map.is_empty() {
        Ok(Head {
            alternatives,
            edges,
            points,
            variables,
            version,
        })
    } else {
        Err(JsonFault::Value)
    }
}
