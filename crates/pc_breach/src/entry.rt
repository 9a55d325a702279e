//! The rows of the entry at an entry state.

ghost use Rattle.std.specs.Prelude.{◌≡◌, ◌<◌, ◌≤◌, pos, length, slice_index_or, OkIff};
ghost use Rattle.pc_rows.specs.declared.row.TheConstants.{VARIABLES};
ghost use Rattle.pc_rows.specs.Linear.{AllInRange, coefficient, value};
ghost use Rattle.pc_breach.specs.Entry.{Evaluates, AreEvaluated, first_broken};

use pc_rows::{Number, Past, Row, Rows};

/// The first row that is not met at an entry state. `Past` exactly where a product or a sum is not in range that is formed for
/// it or for a row before it, the constant first and then the variables in order.
pub fn first_broken(rows: &Rows, entry: &[i128]) -> Result<Option<Row>, Past>
    requires values { length entry.now ≤ VARIABLES }
    requires range { AllInRange entry.now }
    ensures { OkIff result (AreEvaluated entry.now rows.now) (first_broken entry.now rows.now) }
{
    for i in 0..rows.len() {
        let r = rows.at(i);
        let value = value_at(r, entry)?;
        if !value.is_at_least_zero() {
            return Ok(Some(r.copy()));
        }
    }
    Ok(None)
}

/// The value of a row at an entry state. `Past` exactly where a product or a sum is not in range, the constant first and then
/// the variables in order.
fn value_at(r: &Row, entry: &[i128]) -> Result<Number, Past>
    requires values { length entry.now ≤ VARIABLES }
    requires range { AllInRange entry.now }
    ensures { OkIff result (Evaluates entry.now r.now) (value r.now entry.now) }
{
    let mut sum = Number::new(r.constant());
    for v in 0..entry.len() {
        sum = sum.plus_product(coefficient(r, v), value_of(entry, v))?;
    }
    Ok(sum)
}

/// The coefficient of a row at variable `v`, as a number.
fn coefficient(r: &Row, v: usize) -> Number
    requires { v < VARIABLES }
    ensures { result ≡ coefficient r.now v }
{
    Number::new(r.coefficient(v as u32))
}

/// The value of parameter `v`, as a number.
#[tactic(auto, using(crate::proofs::Evaluating::range_at))]
fn value_of(entry: &[i128], v: usize) -> Number
    requires within { v < length entry.now }
    requires range { AllInRange entry.now }
    ensures { result ≡ slice_index_or entry.now v (pos 0) }
{
    Number::new(entry[v])
}
