use pc_rows::Rows;
use pc_text::Place;

/// A point of a graph.
#[derive(Drop)]
pub struct PointInfo {
    /// Whether a loop begins and ends its rounds here.
    pub head: bool,
    /// The rows that the loop tries, and none at a point that is no head.
    pub tried: Rows,
    /// The place of the statement that made the point.
    pub place: Place,
}
