//! Points put together from their places and the loops.

ghost use Rattle.std.specs.Prelude.{◌≡◌, ◌==◌, ◌<◌, ◌^◌, length, IfOk};
ghost use Rattle.std.specs.List.{list_any};
ghost use Rattle.pc_graph.specs.Lowering.{points_from, point_at, tried_at};

use crate::draft::Loop;
use pc_flow::PointInfo;
use pc_rows::Rows;
use pc_text::{NoMemory, Place};
use sqlite_items::Items;
use std::alloc::Global;

/// The points with these places, of which some are the heads of the loops.
pub(crate) fn points(
    alloc: Global,
    loops: &[Loop],
    places: &[Place],
) -> Result<Items<PointInfo>, NoMemory>
    requires { length places.now < 2 ^ 32 }
    ensures { IfOk result (λ points. points ≡ points_from loops.now 0 places.now) }
{
    let mut points = Items::new(alloc);
    for i in 0..places.len() {
        let point = point_at(alloc, loops, i as u32, places[i])?;
        if points.push(point).is_err() {
            return Err(NoMemory);
        }
    }
    Ok(points)
}

/// A point with its place.
fn point_at(alloc: Global, loops: &[Loop], p: u32, place: Place) -> Result<PointInfo, NoMemory>
    ensures { IfOk result (λ point. point ≡ point_at loops.now p place) }
{
    let tried = tried_at(alloc, loops, p)?;
    Ok(PointInfo {
        head: is_head(loops, p),
        tried,
        place,
    })
}

/// Whether a point is the head of one of the loops.
fn is_head(loops: &[Loop], p: u32) -> bool
    ensures { result ≡ list_any (λ l. l.head == p) loops.now }
{
    loops.iter().any(|l| l.head == p)
}

/// The rows that the loop of a head tries, and none at a point that is no head.
fn tried_at(alloc: Global, loops: &[Loop], p: u32) -> Result<Rows, NoMemory>
    ensures { IfOk result (λ rows. rows ≡ tried_at loops.now p) }
{
    for l in loops {
        if l.head == p {
            return match l.tried.copy() {
                Ok(rows) => Ok(rows),
                Err(_) => Err(NoMemory),
            };
        }
    }
    Ok(Rows::new(alloc))
}
