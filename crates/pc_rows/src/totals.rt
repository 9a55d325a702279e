//! Totals of proofs: rows, each times a number, summed up in place.

ghost use Rattle.std.specs.Prelude.{◌≡◌, ◌<◌, ◌+ℤ◌, ◌*ℤ◌, OkIff, length};
ghost use Rattle.std.specs.List.{list_all};
ghost use Rattle.pc_rows.specs.Linear.{InRange, coefficient, is_zero};
ghost use Rattle.pc_rows.specs.Checks.{is_never};
ghost use Rattle.pc_rows.specs.Totals.{AddMultipleIs, AddTimesIs, first_variable};

use crate::number::{Number, Past};
use crate::row::{Row, VARIABLES};
use std::marker::Model;

/// A sum of rows, each times a number. It has a place for each variable, so that a row is added
/// where the sum stands.
#[derive(Drop)]
pub struct Total {
    constant: Number,
    coefficients: [Number; VARIABLES],
}

impl Model for Total {
    ghost use Rattle.pc_rows.specs.Linear.{Linear};

    ghost Value = { Linear };

    ghost view = { λ t. record { constant = t.constant; coefficients = t.coefficients } };
}

impl Total {
    /// The row alone, once.
    pub fn of_row(r: &Row) -> Total
        ensures { result ≡ r.now }
    {
        Total {
            constant: Number::new(r.constant()),
            coefficients: coefficients(r),
        }
    }

    /// Adds `k` times a row, first its constant and then its variables in order. `Past` exactly
    /// where a number of the product or of the sum is not in range; the total is then of no use.
    pub fn add(&mut self, k: Number, r: &Row) -> Result<(), Past>
        ensures { AddTimesIs self.old k r.now result self.new }
    {
        let constant = Number::new(r.constant());
        self.constant = self.constant.plus_product(k, constant)?;
        add_multiple(&mut self.coefficients, k, r)?;
        Ok(())
    }

    /// The constant.
    pub fn constant(&self) -> Number
        ensures { result ≡ self.now.constant }
    {
        self.constant
    }

    /// The first variable whose coefficient is not 0.
    pub fn first_variable(&self) -> Option<u32>
        ensures { result ≡ first_variable self.now.coefficients }
    {
        first_variable(&self.coefficients)
    }

    /// Whether no state meets the total by its form: it has no variable, and a constant below 0.
    pub(crate) fn is_never(&self) -> bool
        ensures { result ≡ is_never self.now }
    {
        are_zero(&self.coefficients) && self.constant.is_at_most(Number::new(-1))
    }
}

/// The coefficients of a row, by variable.
fn coefficients(r: &Row) -> [Number; VARIABLES]
    requires { length r.now.coefficients ≡ VARIABLES }
    ensures { result ≡ r.now.coefficients }
{
    let mut all = [Number::new(0); VARIABLES];
    for v in 0..VARIABLES {
        all[v] = coefficient(r, v);
    }
    all
}

/// Adds `k` times each coefficient of a row.
fn add_multiple(sums: &mut [Number; VARIABLES], k: Number, r: &Row) -> Result<(), Past>
    ensures { AddMultipleIs sums.old k r.now.coefficients result sums.new }
{
    let _row = r.constant();
    for v in 0..VARIABLES {
        let c = coefficient(r, v);
        sums[v] = plus_product(sums[v], k, c)?;
    }
    Ok(())
}

/// The coefficient at variable `v`.
fn coefficient(r: &Row, v: usize) -> Number
    requires { v < VARIABLES }
    ensures { result ≡ coefficient r.now v }
{
    r.number_at(v as u32)
}

/// A sum, and `k` times `c` added to it. Most coefficients are 0, and these are passed over.
fn plus_product(sum: Number, k: Number, c: Number) -> Result<Number, Past>
    ensures { OkIff result (InRange (k *ℤ c) × InRange (sum +ℤ k *ℤ c)) (sum +ℤ k *ℤ c) }
{
    if c.is_zero() {
        let _in_range = sum.get();
        return Ok(sum);
    }
    sum.plus_product(k, c)
}

/// The first variable whose coefficient is not 0.
fn first_variable(coefficients: &[Number; VARIABLES]) -> Option<u32>
    ensures { result ≡ first_variable coefficients.now }
{
    for v in 0..VARIABLES {
        if !coefficients[v].is_zero() {
            return Some(v as u32);
        }
    }
    None
}

/// Whether each number is 0.
fn are_zero(numbers: &[Number]) -> bool
    ensures { result ≡ list_all is_zero numbers.now }
{
    numbers.iter().all(|n| n.is_zero())
}
