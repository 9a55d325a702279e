//! Certificates: rows for each point of a graph, and for each edge the proofs of what it owes.

use pc_language::EDGES;
use pc_rows::{Proof, Rows};
use sqlite_items::Items;
use std::marker::Model;

/// The most points of a graph that has a certificate: those of its edges' ends, and one more.
pub const POINTS: u32 = EDGES + 1;

/// The most alternatives of a certificate that is read.
pub const ALTERNATIVES: usize = 16;

const _: () = prove!(ALTERNATIVES == 16);

/// An alternative: rows for each point, and for each edge the proofs of the rows that it owes, in
/// the order in which it owes them. Points and edges are numbered as in the graph.
#[derive(Drop)]
pub struct Annotated {
    pub rows: Items<Rows>,
    pub proofs: Items<Items<Proof>>,
}

/// A certificate for a graph with so many points, edges and variables. The graph is safe from the
/// entry states that meet the rows of point 0 of some alternative, where the proofs are right.
/// There are fewer than 2^32 alternatives.
#[derive(Drop)]
pub struct Certificate {
    pub points: u32,
    pub edges: u32,
    pub variables: u32,
    pub alternatives: Items<Annotated>,
}

impl Model for Certificate {
    ghost use Rattle.std.specs.Prelude.{◌<◌, ◌^◌, length};
    ghost use Rattle.pc_certificate.specs.Certificate.{Certificate as Claim};

    ghost Value = { Claim };

    ghost view = { λ c. record { points = c.points; edges = c.edges; variables = c.variables; alternatives = c.alternatives } };

    ghost invariant = { λ c. length c.alternatives < 2 ^ 32 };
}
