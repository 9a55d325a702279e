//! The turns of a search.

ghost use Rattle.std.specs.Prelude.{◌≡◌};
ghost use Rattle.pc_simplex.specs.Ending.{TurnIs, EndIs};

use crate::choice::Choice;
use crate::table::Table;
use pc_rows::Past;

/// The most pivots of a search.
pub const PIVOTS: usize = 400;

const _: () = prove!(PIVOTS == 400);

/// How the turns end.
#[derive(Clone, Copy)]
pub enum End {
    /// At the table's point.
    Met,
    /// At a line for which no column may enter.
    Stuck(usize),
    /// With nothing.
    GaveUp,
}

/// Changes the table turn by turn, until something is found.
pub fn run(t: &mut Table) -> End
    ensures { EndIs PIVOTS t.old result t.new }
{
    for made in 0..PIVOTS {
        match turn(t) {
            None => {}
            Some(end) => return end,
        }
    }
    last(t)
}

/// One turn: how it ends the search, or None after a pivot.
fn turn(t: &mut Table) -> Option<End>
    ensures { TurnIs t.old result t.new }
{
    match t.chosen() {
        Choice::Met => Some(End::Met),
        Choice::Stuck(r) => Some(End::Stuck(r)),
        Choice::Exchange(r, j) => match t.exchange(r, j) {
            Ok(()) => None,
            Err(Past) => Some(End::GaveUp),
        },
    }
}

/// The turn after the last pivot.
fn last(t: &Table) -> End
    ensures { EndIs 0 t.now result t.now }
{
    match t.chosen() {
        Choice::Met => End::Met,
        Choice::Stuck(r) => End::Stuck(r),
        Choice::Exchange(_, _) => End::GaveUp,
    }
}
