//! What a pivot makes of the lines of a table.

ghost use Rattle.std.specs.Prelude.{◌≡◌, ◌≢◌, ◌<◌, ◌≤ℤ◌, ◌≤◌, pos, true, OkIff, length, drop};
ghost use Rattle.pc_simplex.specs.Values.{AreZero};
ghost use Rattle.pc_simplex.specs.Pivoting.{entry, is_up, signed, cell, cell_fits, number_after, number_fits, numbers_after, numbers_fit, other_after, other_fits, own_after, own_number, own_numbers, line_after, line_fits, ChangeIs};

use super::{Line, greater};
use crate::difference::difference;
use crate::divisor::Divisor;
use crate::label::Label;
use pc_rows::{Number, Past, VARIABLES};
use std::marker::Model;

/// What changes the other lines: the denominator before the pivot, and its column and its line. The
/// number that is exchanged is kept beside them, and whether it is above 0.
#[derive(Drop)]
pub struct Pivot {
    divisor: Divisor,
    column: usize,
    line: Line,
    entry: Number,
    up: bool,
}

impl Model for Pivot {
    ghost use Rattle.std.specs.Prelude.{◌≡◌, ◌<◌, ◌≤ℤ◌, pos, int_lt, slice_index_or, length};
    ghost use Rattle.pc_rows.specs.declared.row.TheConstants.{VARIABLES};
    ghost use Rattle.pc_simplex.specs.Values.{Pivot as Kept};

    ghost Value = { Kept };

    ghost view = { λ p. record { denominator = p.divisor; column = p.column; line = p.line } };

    ghost invariant = { λ p. (p.column < VARIABLES) × (length p.line.numbers ≡ VARIABLES) × (p.entry ≡ slice_index_or p.line.numbers p.column (pos 0)) × (p.up ≡ int_lt (pos 0) p.entry) };
}

impl Pivot {
    /// The pivot at a line and a column, over a denominator.
    pub fn new(denominator: Number, line: &Line, column: usize) -> Pivot
        requires denominator { pos 1 ≤ℤ denominator }
        requires column { column < VARIABLES }
        ensures { result ≡ record { denominator = denominator; column = column; line = line.now } }
    {
        let entry = line.number(column);
        Pivot {
            divisor: Divisor::new(denominator),
            column,
            line: line.copy(),
            entry,
            up: !entry.is_at_most(Number::new(0)),
        }
    }

    /// The denominator after the pivot: the absolute value of the number that is exchanged.
    pub fn denominator_after(&self) -> Number
        ensures { result ≡ signed (is_up self.now) (entry self.now) }
    {
        signed(self.up, self.entry)
    }

    /// A column behind that of the pivot, from which on the numbers of its line are 0.
    fn width(&self) -> usize
        ensures column { self.now.column < result }
        ensures most { result ≤ VARIABLES }
        ensures long { length self.now.line.numbers ≡ VARIABLES }
        ensures zero { AreZero (drop result self.now.line.numbers) }
    {
        greater(self.line.width(), self.column + 1)
    }

    /// Makes of a line what the pivot's own becomes, with the label of the column.
    fn change_own(&self, label: Label, line: &mut Line)
        ensures { line.new ≡ own_after self.now label }
    {
        let width = self.width();
        line.label = label;
        line.constant = signed(self.up, self.line.constant).negated();
        line.width = width;
        line.numbers = self.line.numbers;
        self.change_own_numbers(width, &mut line.numbers);
    }

    /// Changes a line, where `here` says whether it is the pivot's own. `Past` exactly where something
    /// does not fit, and then the line is to be used no more.
    pub fn change(&self, here: bool, label: Label, line: &mut Line) -> Result<(), Past>
        ensures { ChangeIs (line_fits self.now here line.old) (line_after self.now label here line.old) result line.new }
    {
        if here {
            self.change_own(label, line);
            return Ok(());
        }
        self.change_other(line)
    }

    /// Changes the numbers before column `width` of the pivot's own line; behind it they stay 0.
    fn change_own_numbers(&self, width: usize, numbers: &mut [Number; VARIABLES])
        requires column { self.now.column < width }
        requires most { width ≤ VARIABLES }
        requires zero { AreZero (drop width numbers.old) }
        ensures value { numbers.new ≡ own_numbers self.now 0 numbers.old }
        ensures long { length numbers.new ≡ VARIABLES }
        ensures rest { AreZero (drop width numbers.new) }
    {
        for k in 0..width {
            numbers[k] = self.own_number(k == self.column, numbers[k]);
        }
    }

    fn own_number(&self, here: bool, x: Number) -> Number
        ensures { result ≡ own_number self.now here x }
    {
        if here {
            signed(self.up, self.divisor.get())
        } else {
            signed(self.up, x).negated()
        }
    }

    fn change_other(&self, line: &mut Line) -> Result<(), Past>
        ensures { ChangeIs (other_fits self.now line.old) (other_after self.now line.old) result line.new }
    {
        let factor = line.number(self.column);
        let width = greater(line.width(), self.width());
        line.constant = self.cell(factor, line.constant, self.line.constant)?;
        line.width = width;
        self.change_numbers(factor, width, &mut line.numbers)
    }

    /// Changes the numbers before column `width`; behind it they stay 0.
    fn change_numbers(
        &self,
        factor: Number,
        width: usize,
        numbers: &mut [Number; VARIABLES],
    ) -> Result<(), Past>
        requires most { width ≤ VARIABLES }
        requires pivot { AreZero (drop width self.now.line.numbers) }
        requires zero { AreZero (drop width numbers.old) }
        ensures value { ChangeIs (numbers_fit self.now factor 0 numbers.old self.now.line.numbers) (numbers_after self.now factor 0 numbers.old self.now.line.numbers) result numbers.new }
        ensures long { length numbers.new ≡ VARIABLES }
        ensures rest { AreZero (drop width numbers.new) }
    {
        for k in 0..width {
            numbers[k] = self.number_after(
                factor,
                k == self.column,
                numbers[k],
                self.line.numbers[k],
            )?;
        }
        Ok(())
    }

    fn number_after(&self, factor: Number, here: bool, x: Number, y: Number) -> Result<Number, Past>
        ensures { OkIff result (number_fits self.now factor here x y ≡ true) (number_after self.now factor here x y) }
    {
        // most numbers of a table are 0, and then nothing changes
        if x.is_zero() && y.is_zero() {
            return Ok(x);
        }
        if here {
            Ok(signed(self.up, x))
        } else {
            self.cell(factor, x, y)
        }
    }

    fn cell(&self, factor: Number, x: Number, y: Number) -> Result<Number, Past>
        ensures { OkIff result (cell_fits self.now factor x y ≡ true) (cell self.now factor x y) }
    {
        let difference = difference(self.entry, x, factor, y)?;
        Ok(signed(self.up, self.divisor.divide(difference)?))
    }
}

fn signed(up: bool, n: Number) -> Number
    ensures { result ≡ signed up n }
{
    if up { n } else { n.negated() }
}
