//! Tables.

ghost use Rattle.std.specs.Prelude.{◌≡◌, ◌≢◌, ◌<◌, ◌≤ℤ◌, pos, length, IfOk, ◌∷◌, [], ◌++◌, OnOk};
ghost use Rattle.pc_rows.specs.Linear.{InRange, negation};
ghost use Rattle.pc_rows.specs.Modest.{refuting};
ghost use Rattle.pc_simplex.specs.declared.label.Label.TheVariants.{Row as OfRow};
ghost use Rattle.pc_simplex.specs.Choosing.{line_at, number_at, chosen, chosen_in, first_of, entering_each, IsChoice};
ghost use Rattle.pc_simplex.specs.Pivoting.{lines_fit, lines_after, exchange_fits, exchanged, ChangeIs};
ghost use Rattle.pc_simplex.specs.Turns.{first_table, variables_from, lines_of};

use crate::choice::{Choice, entering, leaving};
use crate::label::Label;
use crate::line::{Line, Pivot};
use pc_rows::{NoMemory, Number, Past, System, VARIABLES};
use std::alloc::Global;
use std::marker::Model;

/// The denominator times the label of a line is the sum of its numbers times the labels of the
/// columns, plus its constant.
#[derive(Drop)]
pub struct Table {
    denominator: Number,
    columns: [Label; VARIABLES],
    lines: Vec<Line>,
}

impl Model for Table {
    ghost use Rattle.std.specs.Prelude.{◌≡◌, ◌≤ℤ◌, pos, length};
    ghost use Rattle.pc_rows.specs.declared.row.TheConstants.{VARIABLES};
    ghost use Rattle.pc_simplex.specs.Values.{Table as Kept};

    ghost Value = { Kept };

    ghost view = { λ t. record { denominator = t.denominator; columns = t.columns; lines = t.lines.items } };

    ghost invariant = { λ t. (length t.columns ≡ VARIABLES) × (pos 1 ≤ℤ t.denominator) };
}

impl Table {
    /// The table of the premises in order and then the negated goal, which has this constant.
    pub fn new(alloc: Global, s: &System, negated: Number) -> Result<Table, NoMemory>
        requires { negated ≡ (negation s.now.goal).constant }
        ensures { IfOk result (λ t. t ≡ first_table s.now) }
    {
        Ok(Table {
            denominator: Number::new(1),
            columns: variables(),
            lines: lines(alloc, s, negated)?,
        })
    }

    /// The denominator, which is at least 1.
    pub fn denominator(&self) -> Number
        ensures value { result ≡ self.now.denominator }
        ensures positive { pos 1 ≤ℤ self.now.denominator }
        ensures range { InRange self.now.denominator }
    {
        let _in_range = self.denominator.get();
        self.denominator
    }

    /// The labels of the columns.
    pub fn columns(&self) -> &[Label; VARIABLES]
        ensures { result.now ≡ self.now.columns }
    {
        &self.columns
    }

    /// Line `r`.
    pub fn line(&self, r: usize) -> &Line
        requires { r < length self.now.lines }
        ensures { result.now ≡ line_at self.now r }
    {
        &self.lines[r]
    }

    /// The lines.
    pub fn lines(&self) -> &[Line]
        ensures { result.now ≡ self.now.lines }
    {
        self.lines.as_slice()
    }

    /// What is to be done next.
    pub fn chosen(&self) -> Choice
        ensures value { result ≡ chosen self.now }
        ensures choice { IsChoice self.now result }
    {
        match leaving(self.lines.as_slice()) {
            None => Choice::Met,
            Some(p) => self.chosen_in(p.index),
        }
    }

    /// What is to be done where line `r` is to leave.
    fn chosen_in(&self, r: usize) -> Choice
        requires { r < length self.now.lines }
        ensures value { result ≡ chosen_in r (first_of (entering_each self.now.columns (line_at self.now r).numbers)) }
        ensures choice { IsChoice self.now result }
    {
        match entering(&self.columns, self.line(r)) {
            None => Choice::Stuck(r),
            Some(q) => Choice::Exchange(r, q.index),
        }
    }

    /// Exchanges line `r` and column `j`. `Past` exactly where something does not fit, and then the
    /// table is to be used no more.
    pub fn exchange(&mut self, r: usize, j: usize) -> Result<(), Past>
        requires line { r < length self.old.lines }
        requires column { j < VARIABLES }
        requires entry { number_at (line_at self.old r) j ≢ pos 0 }
        ensures { ChangeIs (exchange_fits self.old r j) (exchanged self.old r j) result self.new }
    {
        let pivot = Pivot::new(self.denominator, self.line(r), j);
        let label = self.line(r).label();
        change_lines(self.lines.as_mut_slice(), &pivot, self.columns[j], r)?;
        self.columns[j] = label;
        self.denominator = pivot.denominator_after();
        Ok(())
    }
}

fn change_lines(lines: &mut [Line], pivot: &Pivot, label: Label, r: usize) -> Result<(), Past>
    ensures { ChangeIs (lines_fit pivot.now r 0 lines.old) (lines_after pivot.now label r 0 lines.old) result lines.new }
{
    for i in 0..lines.len() {
        pivot.change(i == r, label, &mut lines[i])?;
    }
    Ok(())
}

/// The variables, in order.
fn variables() -> [Label; VARIABLES]
    ensures { result ≡ variables_from VARIABLES 0 }
{
    let mut all = [Label::Variable(0); VARIABLES];
    for v in 0..VARIABLES {
        all[v] = Label::Variable(v as u32);
    }
    all
}

fn lines(alloc: Global, s: &System, negated: Number) -> Result<Vec<Line>, NoMemory>
    requires { negated ≡ (negation s.now.goal).constant }
    ensures { IfOk result (λ lines. lines.items ≡ lines_of 0 (refuting s.now)) }
{
    let premises = s.len();
    let mut lines = room(alloc, premises + 1)?;
    for i in 0..premises {
        add(&mut lines, Line::of_row(i as u32, s.premise(i)))?;
    }
    add(
        &mut lines,
        Line::of_negation(premises as u32, s.goal(), negated),
    )?;
    Ok(lines)
}

/// No lines yet, and room for so many: the one allocation of a search but for what it finds.
fn room(alloc: Global, count: usize) -> Result<Vec<Line>, NoMemory>
    ensures { IfOk result (λ lines. lines.items ≡ []) }
{
    match Vec::with_capacity(alloc, count) {
        Ok(lines) => Ok(lines),
        Err(_) => Err(NoMemory),
    }
}

fn add(lines: &mut Vec<Line>, line: Line) -> Result<(), NoMemory>
    ensures { OnOk result (lines.new.items ≡ lines.old.items ++ line ∷ []) }
{
    match lines.push(line) {
        Ok(()) => Ok(()),
        Err(_) => Err(NoMemory),
    }
}
