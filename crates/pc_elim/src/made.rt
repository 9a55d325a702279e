//! Rows with the multipliers that make them.

ghost use Rattle.std.specs.Prelude.{◌≡◌, ◌<◌, pos, replicate};
ghost use Rattle.pc_elim.specs.Elimination.{factor, is_positive, unit};
ghost use Rattle.pc_elim.specs.Settling.{is_contradiction};

use pc_rows::{Number, PREMISES, Row, VARIABLES};
use std::marker::Model;

/// How many multipliers a row has: one for each premise of a system, and one for its negated goal.
pub const PARTS: usize = 49;

const _: () = prove!(PARTS == PREMISES + 1);

/// The most rows that an elimination may make.
pub const LIMIT: usize = 26244;

const _: () = prove!(LIMIT == 26244);

/// Why rows are not settled.
#[derive(Clone, Copy, Debug, PartialEq, Eq)]
pub enum Fault {
    /// A number is not in range.
    Past,
    /// There are more than `LIMIT` rows.
    Full,
    NoMemory,
}

/// A row, and for each row at the start, in order, the multiplier with which it goes into this one.
#[derive(Drop)]
pub struct Made {
    row: Row,
    multipliers: [Number; PARTS],
}

impl Model for Made {
    ghost use Rattle.std.specs.Prelude.{◌≡◌, length};
    ghost use Rattle.pc_elim.specs.Values.{Made as Kept};
    ghost use Rattle.pc_elim.specs.declared.made.TheConstants.{PARTS};

    ghost Value = { Kept };

    ghost view = { λ m. record { row = m.row; multipliers = m.multipliers } };

    ghost invariant = { λ m. length m.multipliers ≡ PARTS };
}

impl Made {
    /// A row with the multipliers that make it of the rows at the start.
    pub fn new(row: Row, multipliers: [Number; PARTS]) -> Made
        ensures { result ≡ record { row = row; multipliers = multipliers } }
    {
        Made { row, multipliers }
    }

    /// Row `i` of the start.
    pub fn of_row(r: &Row, i: usize) -> Made
        requires { i < PARTS }
        ensures { result ≡ record { row = r.now; multipliers = unit PARTS i } }
    {
        Made {
            row: r.copy(),
            multipliers: unit(i),
        }
    }

    /// The row.
    pub fn row(&self) -> &Row
        ensures { result.now ≡ self.now.row }
    {
        &self.row
    }

    /// The multipliers, one for each row at the start.
    pub fn multipliers(&self) -> &[Number; PARTS]
        ensures { result.now ≡ self.now.multipliers }
    {
        &self.multipliers
    }

    /// The coefficient at variable `k`.
    pub fn factor(&self, k: u32) -> Number
        requires { k < VARIABLES }
        ensures { result ≡ factor self.now k }
    {
        Number::new(self.row.coefficient(k))
    }

    /// Whether the row, when it has no variable, is met by no point.
    pub fn is_contradiction(&self) -> bool
        ensures { result ≡ is_contradiction self.now }
    {
        self.row.constant() < 0
    }

    /// The same row with the same multipliers.
    pub fn copy(&self) -> Made
        ensures { result ≡ self.now }
    {
        Made {
            row: self.row.copy(),
            multipliers: self.multipliers,
        }
    }
}

/// Whether the number is above 0.
pub fn is_positive(z: Number) -> bool
    ensures { result ≡ is_positive z }
{
    !z.is_at_most(Number::new(0))
}

fn unit(i: usize) -> [Number; PARTS]
    requires { i < PARTS }
    ensures { result ≡ unit PARTS i }
{
    let mut multipliers = zeros();
    multipliers[i] = Number::new(1);
    multipliers
}

fn zeros() -> [Number; PARTS]
    ensures { result ≡ replicate PARTS (pos 0) }
{
    [Number::new(0); PARTS]
}
