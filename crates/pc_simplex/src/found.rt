//! What a table tells at the end: a point, or multipliers.

ghost use Rattle.std.specs.Prelude.{◌≡◌, ◌<◌, ℤ, pos, ◌≤ℤ◌, ◌≤◌, List, ◌∷◌, IfOk, length};
ghost use Rattle.pc_rows.specs.declared.system.TheConstants.{PREMISES};
ghost use Rattle.pc_simplex.specs.Values.{Line as Kept};
ghost use Rattle.pc_simplex.specs.Found.{point_of, point_at, number_of, multiplier_of, proof_of};

use crate::label::Label;
use crate::line::Line;
use crate::table::Table;
use pc_rows::{NoMemory, Number, Parts, Past, Point, Proof, VARIABLES};
use std::alloc::Global;

/// The point of a table: a variable that labels a line is that line's constant over the
/// denominator, and every other is 0. It is always in range.
pub fn point(t: &Table) -> Result<Point, Past>
    ensures value { result ≡ Ok (point_of t.now) }
    ensures positive { pos 1 ≤ℤ t.now.denominator }
{
    let mut point = Point::origin().over_multiple(t.denominator())?;
    let lines = t.lines();
    // the first line with a label counts, so it is written last
    for behind in 0..lines.len() {
        point = with_line(point, &lines[lines.len() - 1 - behind]);
    }
    Ok(point)
}

/// The point of some lines, and of this one before them.
fn with_line(point: Point, line: &Line) -> Point
    ensures { (d : ℤ) (ls : List Kept) → point ≡ point_at d ls → result ≡ point_at d (line.now ∷ ls) }
{
    match line.label() {
        Label::Variable(v) if v < VARIABLES as u32 => point.with(v, line.constant()),
        _ => point,
    }
}

/// The multipliers where line `r` is stuck.
pub fn proof(alloc: Global, premises: usize, t: &Table, r: usize) -> Result<Proof, NoMemory>
    requires premises { premises ≤ PREMISES }
    requires line { r < length t.now.lines }
    ensures { IfOk result (λ p. p ≡ proof_of premises t.now r) }
{
    let line = t.line(r);
    let mut parts = Parts::new(alloc);
    for i in 0..premises {
        parts.add(i as u32, multiplier_of(t, line, i as u32))?;
    }
    Ok(Proof::new(multiplier_of(t, line, premises as u32), parts))
}

/// What row `i` is multiplied by where the line is stuck.
fn multiplier_of(t: &Table, line: &Line, i: u32) -> Number
    ensures { result ≡ multiplier_of t.now line.now i }
{
    if Label::Row(i).is(line.label()) {
        return t.denominator();
    }
    number_of(Label::Row(i), t.columns(), line).negated()
}

/// The number in the column with the label, or 0 where there is none.
fn number_of(label: Label, columns: &[Label; VARIABLES], line: &Line) -> Number
    ensures { result ≡ number_of label columns.now line.now.numbers }
{
    let numbers = line.numbers();
    let width = line.width();
    for k in 0..width {
        if label.is(columns[k]) {
            return numbers[k];
        }
    }
    Number::new(0)
}
