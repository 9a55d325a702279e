use pc_flow::Edge;
use pc_rows::Rows;

/// What the proofs over an edge start from.
#[derive(Clone, Copy)]
pub struct Origin<'a> {
    /// Whether the edge leaves the head of a loop. There proofs are looked for; elsewhere the premises cover the rows.
    pub head: bool,
    pub edge: &'a Edge,
    /// The rows of the point that the edge leaves.
    pub rows: &'a Rows,
}
