//! The rows of points, as they are read.

ghost use Rattle.std.specs.Prelude.{◌≡◌, ◌≤◌, ◌+◌, length};
ghost use Rattle.serde_json.specs.Data.{array};
ghost use Rattle.serde_json.specs.View.{view, items_view};
ghost use Rattle.pc_json.specs.Values.{of_row, of_rows, of_points};
ghost use Rattle.pc_json.specs.Kept.{IsRowOver, AreRowsOver, ArePoints};
ghost use Rattle.pc_json.specs.Exactly.{IsExactly, IsConstant};

use crate::fault::JsonFault;
use crate::numbers::number_of;
use pc_rows::{ROWS, Row, Rows, VARIABLES};
use serde_json::Value;
use sqlite_items::Items;
use std::alloc::Global;

/// The row over so many variables, which is an array of its constant and a coefficient for each.
fn row_of(alloc: Global, value: &Value, variables: u32) -> Result<Row, JsonFault>
    requires { variables ≤ VARIABLES }
    ensures { IsExactly (IsRowOver variables) (of_row variables) (view value.now) result }
{
    match value.as_array() {
        Some(list) => row_in(alloc, list.as_slice(), variables),
        None => Err(JsonFault::Value),
    }
}

/// The row whose numerals the values are.
fn row_in(alloc: Global, list: &[Value], variables: u32) -> Result<Row, JsonFault>
    requires { variables ≤ VARIABLES }
    ensures { IsExactly (IsRowOver variables) (of_row variables) (array (items_view list.now)) result }
{
    if list.len() != variables as usize + 1 {
        return Err(JsonFault::Value);
    }
    let constant = number_of(&list[0])?;
    with_coefficients(Row::of_constant(alloc, constant.get()), list, variables)
}

/// The row with the coefficients of the variables, which stand behind its constant.
fn with_coefficients(row: Row, list: &[Value], variables: u32) -> Result<Row, JsonFault>
    requires variables { variables ≤ VARIABLES }
    requires long { length list.now ≡ variables + 1 }
    requires constant { IsConstant row list.now }
    ensures { IsExactly (IsRowOver variables) (of_row variables) (array (items_view list.now)) result }
{
    let mut row = row;
    'variables: for v in 0..variables {
        let coefficient = number_of(&list[v as usize + 1])?;
        row = row.with(v, coefficient.get());
    }
    Ok(row)
}

/// The rows over so many variables, at most [`ROWS`].
fn rows_of(alloc: Global, value: &Value, variables: u32) -> Result<Rows, JsonFault>
    requires { variables ≤ VARIABLES }
    ensures { IsExactly (AreRowsOver variables) (of_rows variables) (view value.now) result }
{
    match value.as_array() {
        Some(list) => rows_in(alloc, list.as_slice(), variables),
        None => Err(JsonFault::Value),
    }
}

/// The rows that have the values.
fn rows_in(alloc: Global, list: &[Value], variables: u32) -> Result<Rows, JsonFault>
    requires { variables ≤ VARIABLES }
    ensures { IsExactly (AreRowsOver variables) (of_rows variables) (array (items_view list.now)) result }
{
    if ROWS < list.len() {
        return Err(JsonFault::Value);
    }
    let mut rows = Rows::new(alloc);
    for item in list {
        let row = row_of(alloc, item, variables)?;
        // There is room for every row, so a push is refused for want of memory alone.
        if rows.push(row).is_err() {
            return Err(JsonFault::NoMemory);
        }
    }
    Ok(rows)
}

/// The rows of so many points.
pub(crate) fn points_of(
    alloc: Global,
    value: &Value,
    points: u32,
    variables: u32,
) -> Result<Items<Rows>, JsonFault>
    requires { variables ≤ VARIABLES }
    ensures { IsExactly (ArePoints points variables) (of_points variables) (view value.now) result }
{
    match value.as_array() {
        Some(list) => points_in(alloc, list.as_slice(), points, variables),
        None => Err(JsonFault::Value),
    }
}

/// The rows of the points that have the values.
fn points_in(
    alloc: Global,
    list: &[Value],
    points: u32,
    variables: u32,
) -> Result<Items<Rows>, JsonFault>
    requires { variables ≤ VARIABLES }
    ensures { IsExactly (ArePoints points variables) (of_points variables) (array (items_view list.now)) result }
{
    if list.len() != points as usize {
        return Err(JsonFault::Value);
    }
    let mut all = Items::new(alloc);
    for item in list {
        let rows = rows_of(alloc, item, variables)?;
        all.push(rows)?;
    }
    Ok(all)
}
