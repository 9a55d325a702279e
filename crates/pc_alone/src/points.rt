//! Points.

ghost use Rattle.std.specs.Prelude.{◌≤◌};
ghost use Rattle.pc_rows.specs.declared.row.TheConstants.{VARIABLES};

use crate::fault::Fault;
use crate::numbers::{number_of, push_line, push_number};
use crate::rows::push_word;
use crate::texts::{line_in, row_in};
use pc_ports::Files;
use pc_rows::{Number, Past, Point, VARIABLES};
use pc_text::Text;
use std::alloc::Global;

/// Whether a row is met at a point, or `past`.
pub fn sign_at(alloc: Global, texts: &Files, text: &mut Text) -> Result<(), Fault> {
    let point = point_of(line_in(texts, "point")?)?;
    let row = row_in(alloc, texts, "row")?;
    push_sign(text, pc_rows::sign_at(&row, &point))
}

/// Adds whether a row is met, or `past`.
fn push_sign(text: &mut Text, met: Option<bool>) -> Result<(), Fault> {
    match met {
        Some(met) => push_word(text, met),
        None => push_line(text, "past"),
    }
}

/// The point on a line: its denominator, and its numerators from the first variable on.
fn point_of(line: &str) -> Result<Point, Fault> {
    let mut numerals = line.split(' ');
    let Some(denominator) = numerals.next() else {
        return Err(Fault::Number);
    };
    let mut point = origin_over(number_of(denominator)?)?;
    let mut variable: u32 = 0;
    for numeral in numerals {
        point = with(point, variable, number_of(numeral)?)?;
        variable = variable.saturating_add(1);
    }
    Ok(point)
}

/// The origin with this denominator.
fn origin_over(denominator: Number) -> Result<Point, Fault> {
    if !Number::new(0).is_below(denominator) {
        return Err(Fault::Number);
    }
    match Point::origin().over_multiple(denominator) {
        Ok(point) => Ok(point),
        Err(Past) => Err(Fault::Number),
    }
}

/// The point with another numerator at a variable.
fn with(point: Point, variable: u32, numerator: Number) -> Result<Point, Fault> {
    if (variable as usize) < VARIABLES {
        Ok(point.with(variable, numerator))
    } else {
        Err(Fault::Number)
    }
}

/// Adds a point as a line: its denominator, and its numerators up to the last that is not 0.
pub fn push_point(text: &mut Text, point: &Point) -> Result<(), Fault> {
    text.push_all(b"point")?;
    push_number(text, point.denominator())?;
    for variable in 0..last_of(point) {
        push_number(text, point.numerator(variable))?;
    }
    Ok(text.push(b'\n')?)
}

/// One more than the last variable that is not 0 at a point, and 0 where there is none.
fn last_of(point: &Point) -> u32
    ensures { result ≤ VARIABLES }
{
    for above in 0..VARIABLES as u32 {
        let last = VARIABLES as u32 - above;
        if point.numerator(last - 1) != 0 {
            return last;
        }
    }
    0
}
