//! The numbers of the edges at each point.

ghost use Rattle.std.specs.Prelude.{◌≡◌, ◌<◌, ◌^◌, length, IfOk};
ghost use Rattle.std.specs.List.{AllByRecursion as Each};
ghost use Rattle.pc_flow.specs.Incidence.{AreNumbers, point_at, HasNone};

use crate::edge::Edge;
use pc_text::NoMemory;
use sqlite_items::Items;
use std::alloc::Global;

/// An end of an edge.
#[derive(Clone, Copy)]
pub enum End {
    Source,
    Target,
}

impl End {
    /// The point at this end of an edge.
    fn point(self, e: &Edge) -> u32
        ensures { result ≡ point_at self e.now }
    {
        match self {
            End::Source => e.from,
            End::Target => e.to,
        }
    }
}

/// For each of so many points the numbers of the edges that have it at this end, in order.
pub fn numbers(
    alloc: Global,
    end: End,
    points: usize,
    edges: &[Edge],
) -> Result<Items<Items<u32>>, NoMemory>
    requires few { length edges.now < 2 ^ 32 }
    requires within { Each (λ e. point_at end e < points) edges.now }
    ensures { IfOk result (AreNumbers end points edges.now) }
{
    let mut all = no_numbers(alloc, points)?;
    for i in 0..edges.len() {
        let p = end.point(&edges[i]);
        if all[p as usize].push(i as u32).is_err() {
            return Err(NoMemory);
        }
    }
    Ok(Items::from_vec(all))
}

/// No numbers at any of so many points.
fn no_numbers(alloc: Global, points: usize) -> Result<Vec<Items<u32>>, NoMemory>
    ensures { IfOk result (λ all. HasNone points all.items) }
{
    let mut all = Vec::new(alloc);
    for _p in 0..points {
        if all.push(Items::new(alloc)).is_err() {
            return Err(NoMemory);
        }
    }
    Ok(all)
}
