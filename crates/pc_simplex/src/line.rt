//! Lines of a table.

ghost use Rattle.std.specs.Prelude.{◌≡◌, ◌<◌, ◌≤◌, ℕ, pos, length, drop, replicate};
ghost use Rattle.pc_rows.specs.Linear.{negate_list};
ghost use Rattle.pc_simplex.specs.Choosing.{leaving, number_at};
ghost use Rattle.pc_simplex.specs.Values.{AreZero};
ghost use Rattle.pc_simplex.specs.declared.label.Label.TheVariants.{Row as OfRow};

use crate::label::Label;
use pc_rows::{Number, Row, VARIABLES};
use std::marker::Model;

mod pivot;

pub use pivot::Pivot;

/// A line of a table: its label, its constant, and its number in each column. From column `width`
/// on its numbers are 0, so that loops over them end there.
#[derive(Drop)]
pub struct Line {
    label: Label,
    constant: Number,
    width: usize,
    numbers: [Number; VARIABLES],
}

impl Model for Line {
    ghost use Rattle.std.specs.Prelude.{◌≡◌, ◌≤◌, length, drop};
    ghost use Rattle.pc_rows.specs.declared.row.TheConstants.{VARIABLES};
    ghost use Rattle.pc_simplex.specs.Values.{Line as Kept, AreZero};

    ghost Value = { Kept };

    ghost view = { λ l. record { label = l.label; constant = l.constant; numbers = l.numbers } };

    ghost invariant = { λ l. (length l.numbers ≡ VARIABLES) × (l.width ≤ VARIABLES) × AreZero (drop l.width l.numbers) };
}

impl Line {
    /// The line of row `i`.
    pub fn of_row(i: u32, r: &Row) -> Line
        ensures { result ≡ record { label = OfRow i; constant = r.now.constant; numbers = r.now.coefficients } }
    {
        let constant = Number::new(r.constant());
        let mut numbers = zeros();
        let mut width = 0;
        for k in 0..r.terms() {
            let (v, c) = r.term(k);
            numbers[v as usize] = Number::new(c);
            width = greater(width, v as usize + 1);
        }
        Line {
            label: Label::Row(i),
            constant,
            width,
            numbers,
        }
    }

    /// The line of row `i`, which is the negation of `r` and has this constant.
    pub fn of_negation(i: u32, r: &Row, constant: Number) -> Line
        ensures { result ≡ record { label = OfRow i; constant = constant; numbers = negate_list r.now.coefficients } }
    {
        let mut line = Line::of_row(i, r);
        line.constant = constant;
        negate(line.width, &mut line.numbers);
        line
    }

    /// The same line.
    pub fn copy(&self) -> Line
        ensures { result ≡ self.now }
    {
        Line {
            label: self.label,
            constant: self.constant,
            width: self.width,
            numbers: self.numbers,
        }
    }

    /// What the line stands for.
    pub fn label(&self) -> Label
        ensures { result ≡ self.now.label }
    {
        self.label
    }

    /// The constant.
    pub fn constant(&self) -> Number
        ensures { result ≡ self.now.constant }
    {
        self.constant
    }

    /// The number in each column, in order.
    pub fn numbers(&self) -> &[Number; VARIABLES]
        ensures { result.now ≡ self.now.numbers }
    {
        &self.numbers
    }

    /// The number in column `j`.
    pub fn number(&self, j: usize) -> Number
        requires { j < VARIABLES }
        ensures value { result ≡ number_at self.now j }
        ensures width { length self.now.numbers ≡ VARIABLES }
    {
        self.numbers[j]
    }

    /// A column from which on all numbers are 0.
    pub fn width(&self) -> usize
        ensures most { result ≤ VARIABLES }
        ensures long { length self.now.numbers ≡ VARIABLES }
        ensures zero { AreZero (drop result self.now.numbers) }
    {
        self.width
    }

    /// The label, where the line may leave the rows.
    pub fn leaving(&self) -> Option<Label>
        ensures { result ≡ leaving self.now.label self.now.constant }
    {
        match self.label {
            Label::Variable(_) => None,
            Label::Row(i) => {
                if self.constant.is_at_least_zero() {
                    None
                } else {
                    Some(Label::Row(i))
                }
            }
        }
    }
}

/// Puts the opposite for each number; from column `width` on they are 0, and stay so.
fn negate(width: usize, numbers: &mut [Number; VARIABLES])
    requires most { width ≤ VARIABLES }
    requires zero { AreZero (drop width numbers.old) }
    ensures value { numbers.new ≡ negate_list numbers.old }
    ensures long { length numbers.new ≡ VARIABLES }
    ensures rest { AreZero (drop width numbers.new) }
{
    for k in 0..width {
        numbers[k] = numbers[k].negated();
    }
}

/// A 0 in each column.
fn zeros() -> [Number; VARIABLES]
    ensures { result ≡ replicate VARIABLES (pos 0) }
{
    [Number::new(0); VARIABLES]
}

/// The greater of the two.
fn greater(a: usize, b: usize) -> usize
    ensures left { a ≤ result }
    ensures right { b ≤ result }
    ensures least { (n : ℕ) → a ≤ n → b ≤ n → result ≤ n }
{
    if a < b { b } else { a }
}
