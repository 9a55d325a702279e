//! Numerals and counts of a value.

ghost use Rattle.std.specs.Prelude.{◌≡◌, ◌<◌, ◌^◌};
ghost use Rattle.serde_json.specs.Data.{string};
ghost use Rattle.serde_json.specs.View.{view};
ghost use Rattle.pc_rows.specs.Linear.{InRange};
ghost use Rattle.pc_json.specs.Values.{of_count, of_numeral};
ghost use Rattle.pc_json.specs.Exactly.{IsExactly};

use crate::fault::JsonFault;
use pc_rows::Number;
use pc_text::read_number;
use serde_json::Value;

/// The number in range whose canonical numeral the string is.
pub(crate) fn number_of(value: &Value) -> Result<Number, JsonFault>
    ensures { IsExactly InRange of_numeral (view value.now) result }
{
    match value.as_str() {
        Some(text) => number_in(text.as_bytes()),
        None => Err(JsonFault::Value),
    }
}

/// The number in range whose canonical numeral the bytes are.
fn number_in(text: &[u8]) -> Result<Number, JsonFault>
    ensures { IsExactly InRange of_numeral (string text.now) result }
{
    let Some((number, end)) = read_number(text, 0) else {
        return Err(JsonFault::Value);
    };
    if end == text.len() {
        Ok(Number::new(number))
    } else {
        Err(JsonFault::Value)
    }
}

/// The count, which is an integer from 0 on, written without a point or an exponent.
pub(crate) fn count_of(value: &Value) -> Result<u32, JsonFault>
    ensures { IsExactly (λ n. n < 2 ^ 32) of_count (view value.now) result }
{
    match value.as_u64() {
        Some(count) => u32::try_from(count).map_err(|_| JsonFault::Value),
        None => Err(JsonFault::Value),
    }
}
