//! The ruling on an edge.

ghost use Rattle.std.specs.Prelude.{◌≡◌, ◌<◌, length};
ghost use Rattle.pc_flow.specs.Carry.{premises};
ghost use Rattle.pc_replay.specs.Flaws.{row_flaw};
ghost use Rattle.pc_replay.specs.Rule.{edge_ruling};

use crate::flaw::Flaw;
use crate::proof::flaw;
use crate::ruling::Ruling;
use pc_certificate::Annotated;
use pc_flow::{Edge, back, rows_at};
use pc_rows::{Past, Proof, Row, Rows};

/// What is wrong with the proof of a row that an edge owes, where `source` are the rows of the
/// point that it leaves.
fn row_flaw(e: &Edge, source: &Rows, r: &Row, p: &Proof) -> Option<Flaw>
    ensures { result ≡ row_flaw e.now.what (premises e.now.what source.now) r.now p.now }
{
    match back(e, r) {
        Ok(goal) => flaw(e, source, &goal, p),
        Err(Past) => Some(Flaw::Past),
    }
}

/// The ruling on edge `i` of alternative `n`.
pub fn edge(n: u32, a: &Annotated, i: u32, e: &Edge, proofs: &[Proof]) -> Ruling
    requires leaves { e.now.from < length a.now.rows }
    requires reaches { e.now.to < length a.now.rows }
    ensures { result ≡ edge_ruling n a.now i (e.now, proofs.now) }
{
    let source = rows_at(&a.rows, e.from);
    let target = rows_at(&a.rows, e.to);
    if proofs.len() != e.owed(target) {
        return Ruling::Count {
            alternative: n,
            edge: i,
        };
    }
    for k in 0..proofs.len() {
        if let Some(flaw) = row_flaw(e, source, e.asked(target, k), &proofs[k]) {
            return flaw.at(n, i, k as u32);
        }
    }
    Ruling::Accepted
}
