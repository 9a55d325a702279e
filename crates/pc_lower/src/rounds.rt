//! Rounds, in which the heads have their turns.

ghost use Rattle.std.specs.Prelude.{◌≡◌, ◌≤◌, ◌<◌, length, true};
ghost use Rattle.pc_lower.specs.Annotation.{AreFew, is_head};
ghost use Rattle.pc_lower.specs.Candidate.{found};
ghost use Rattle.pc_lower.specs.Course.{found_operations};
ghost use Rattle.pc_lower.specs.Fresh.{IsFresh, TurnIs, RoundIs, HeadsAre};

use crate::annotation::no_rows;
use crate::fault::CandidateFault;
use crate::mode::Mode;
use crate::refresh::{end_of_loop, refresh};
use crate::turn::turned;
use pc_flow::{Annotation, Graph};
use std::alloc::Global;

/// How many rounds there are.
pub const ROUNDS: u32 = 4;

/// The rows of the heads after all rounds, from no rows. What stands at other points is no matter.
pub fn found(alloc: Global, g: &Graph, m: Mode) -> Result<Annotation, CandidateFault>
    ensures { HeadsAre g.now (found_operations g.now m) (found g.now m) result }
{
    let mut rows = no_rows(alloc, g)?;
    let mut left = ROUNDS;
    while 0 < left {
        left -= 1;
        round(alloc, g, m, &mut rows)?;
    }
    Ok(rows)
}

/// A round, in which every head has a turn, from the greatest number down.
fn round(alloc: Global, g: &Graph, m: Mode, rows: &mut Annotation) -> Result<(), CandidateFault>
    requires long { length rows.old ≡ length g.now.points }
    requires few { AreFew rows.old }
    ensures { RoundIs g.now m rows.old result rows.new }
{
    let mut high = g.points();
    let mut h = g.points();
    while 0 < h {
        h -= 1;
        if g.is_head(h) {
            high = take_turn(alloc, g, m, h, high, rows)?;
        }
    }
    Ok(())
}

/// The turn of a head, where the rows of the points from `high` on are up to date. The answer is such a number again: those
/// after the loop need nothing that is another after the turn.
fn take_turn(
    alloc: Global,
    g: &Graph,
    m: Mode,
    h: u32,
    high: u32,
    rows: &mut Annotation,
) -> Result<u32, CandidateFault>
    requires point { h < length g.now.points }
    requires head { is_head g.now.points h ≡ true }
    requires long { length rows.old ≡ length g.now.points }
    requires few { AreFew rows.old }
    requires within { high ≤ length g.now.points }
    requires fresh { IsFresh g.now high rows.old }
    ensures { TurnIs g.now m h rows.old result rows.new }
{
    // what a graph keeps
    let _points = g.points();
    refresh(alloc, g, true, h + 1, high, rows)?;
    let new = turned(alloc, g, m, h, rows)?;
    // its length tells that the list is within its limit
    let _most = new.len();
    rows.set(h as usize, new);
    Ok(end_of_loop(g, h))
}
