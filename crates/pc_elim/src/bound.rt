//! Bounds of a variable, and the value that it gets between them.

ghost use Rattle.std.specs.Prelude.{◌≡◌, ◌<◌, ℤ, pos, ◌≤ℤ◌, Some, None, OkIff};
ghost use Rattle.pc_elim.specs.Elimination.{is_positive, factor};
ghost use Rattle.pc_elim.specs.Placing.{turned, is_below, next_bound, greater, greatest, placed_at, placed};
ghost use Rattle.pc_elim.specs.Fits.{GreaterFits, NextFits, GreatestFits, AtFits, PlacedFits};

use crate::made::{Made, is_positive};
use pc_rows::{Number, Past, Point, VARIABLES};
use std::marker::Model;

/// A bound of a variable or of its opposite: the number over the weight, which is above 0, and over
/// the denominator of a point.
#[derive(Clone, Copy)]
pub struct Bound {
    number: Number,
    weight: Number,
}

impl Model for Bound {
    ghost use Rattle.pc_elim.specs.Values.{Bound as Fraction};

    ghost Value = { Fraction };

    ghost view = { λ b. record { number = b.number; weight = b.weight } };

    ghost inverse = { λ b. record { number = b.number; weight = b.weight } };
}

/// The point with variable `k`, which is 0 there, at its greatest lower bound in the rows, else at
/// its least upper bound, else at 0. `Past` exactly where a number that this takes is not in range;
/// upper bounds take none where there is a lower one.
pub fn placed(k: u32, rows: &[Made], p: Point) -> Result<Point, Past>
    requires { k < VARIABLES }
    ensures { OkIff result (PlacedFits k rows.now p) (placed k rows.now p) }
{
    match greatest(false, k, &p, rows)? {
        Some(lower) => placed_at(false, k, &p, lower),
        None => match greatest(true, k, &p, rows)? {
            Some(upper) => placed_at(true, k, &p, upper),
            None => Ok(p),
        },
    }
}

fn placed_at(opposite: bool, k: u32, p: &Point, b: Bound) -> Result<Point, Past>
    requires variable { k < VARIABLES }
    requires positive { pos 1 ≤ℤ b.weight }
    ensures { OkIff result (AtFits p.now b) (placed_at opposite k p.now b) }
{
    let scaled = p.over_multiple(b.weight)?;
    Ok(scaled.with(k, turned(opposite, b.number)))
}

fn turned(opposite: bool, z: Number) -> Number
    ensures { result ≡ turned opposite z }
{
    if opposite { z.negated() } else { z }
}

/// The greatest bound that the rows give to the variable, or to its opposite.
fn greatest(opposite: bool, k: u32, p: &Point, rows: &[Made]) -> Result<Option<Bound>, Past>
    requires { k < VARIABLES }
    ensures { OkIff result (GreatestFits opposite k p.now None rows.now) (greatest opposite k p.now None rows.now) }
{
    let mut best = None;
    for r in rows {
        best = next_bound(opposite, k, p, best, r)?;
    }
    Ok(best)
}

fn next_bound(
    opposite: bool,
    k: u32,
    p: &Point,
    best: Option<Bound>,
    r: &Made,
) -> Result<Option<Bound>, Past>
    requires { k < VARIABLES }
    ensures { OkIff result (NextFits opposite k p.now best r.now) (next_bound opposite k p.now best r.now) }
{
    let weight = turned(opposite, r.factor(k));
    if !is_positive(weight) {
        return Ok(best);
    }
    let number = p.value(r.row())?.negated();
    greater(best, Bound { number, weight })
}

fn greater(best: Option<Bound>, b: Bound) -> Result<Option<Bound>, Past>
    ensures { OkIff result (GreaterFits best b) (greater best b) }
{
    match best {
        None => Ok(Some(b)),
        Some(a) => {
            if is_below(a, b)? {
                Ok(Some(b))
            } else {
                Ok(Some(a))
            }
        }
    }
}

fn is_below(a: Bound, b: Bound) -> Result<bool, Past>
    ensures { OkIff result (GreaterFits (Some a) b) (is_below a b) }
{
    let left = a.number.times(b.weight)?;
    let right = b.number.times(a.weight)?;
    Ok(!right.is_at_most(left))
}
