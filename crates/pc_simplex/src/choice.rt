//! Which line and which column of a table are exchanged.

ghost use Rattle.std.specs.Prelude.{◌≡◌, ◌≢◌, ◌<◌, pos, length, slice_index_or, IfSome};
ghost use Rattle.pc_simplex.specs.Choosing.{earlier, first_of, leaving_each, entering, entering_each};

use crate::label::Label;
use crate::line::Line;
use pc_rows::{Number, VARIABLES};
use std::marker::Model;

/// What is to be done with a table.
#[derive(Clone, Copy)]
pub enum Choice {
    /// Nothing: no line may leave, so the table's point meets the rows.
    Met,
    /// Nothing: this line is to leave, and no column may enter for it.
    Stuck(usize),
    /// A line and a column are to be exchanged.
    Exchange(usize, usize),
}

/// A place of a list, and the label there.
#[derive(Clone, Copy)]
pub struct Pick {
    pub index: usize,
    pub label: Label,
}

impl Model for Pick {
    ghost use Rattle.pc_simplex.specs.Values.{Pick as Picked};

    ghost Value = { Picked };

    ghost view = { λ p. record { index = p.index; label = p.label } };

    ghost inverse = { λ p. record { index = p.index; label = p.label } };
}

/// The line to leave: of those that may, the one with the first label.
pub fn leaving(lines: &[Line]) -> Option<Pick>
    ensures value { result ≡ first_of (leaving_each lines.now) }
    ensures within { IfSome result (λ p. p.index < length lines.now) }
{
    let mut best = None;
    for (i, line) in lines.iter().enumerate() {
        best = earlier(best, i, line.leaving());
    }
    best
}

/// The column to enter: of those that may, the one with the first label.
pub fn entering(columns: &[Label; VARIABLES], line: &Line) -> Option<Pick>
    ensures value { result ≡ first_of (entering_each columns.now line.now.numbers) }
    ensures entry { IfSome result (λ q. (q.index < VARIABLES) × (slice_index_or line.now.numbers q.index (pos 0) ≢ pos 0)) }
{
    let numbers = line.numbers();
    let width = line.width();
    let mut best = None;
    for k in 0..width {
        best = earlier(best, k, may_enter(columns[k], numbers[k]));
    }
    best
}

/// The label, where its column may enter: a variable where its number is not 0, and a row where it
/// is above 0.
fn may_enter(label: Label, number: Number) -> Option<Label>
    ensures { result ≡ entering label number }
{
    match label {
        Label::Variable(v) => if number.is_zero() {
            None
        } else {
            Some(Label::Variable(v))
        },
        Label::Row(i) => {
            if number.is_at_most(Number::new(0)) {
                None
            } else {
                Some(Label::Row(i))
            }
        }
    }
}

fn earlier(best: Option<Pick>, index: usize, candidate: Option<Label>) -> Option<Pick>
    ensures { result ≡ earlier best index candidate }
{
    match candidate {
        None => best,
        Some(label) => match best {
            None => Some(Pick { index, label }),
            Some(p) => if label.is_before(p.label) {
                Some(Pick { index, label })
            } else {
                Some(p)
            },
        },
    }
}
