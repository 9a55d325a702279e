/// What the replayer says of a certificate: that it is right, or the first thing that is wrong.
/// Alternatives, edges, rows and variables are counted from 0. A row is one of those that an edge
/// owes, in order; of `Entry`, one of those of the entry.
#[derive(Clone, Copy, Debug, PartialEq, Eq)]
pub enum Ruling {
    /// Nothing is wrong.
    Accepted,
    /// It is for a graph with other numbers of points, edges or variables, a list has another
    /// length, or a row has a variable that the graph lacks.
    Shape,
    /// A row of the entry has a local.
    Entry {
        alternative: u32,
        row: u32,
    },
    /// There are not as many proofs as the edge owes rows.
    Count {
        alternative: u32,
        edge: u32,
    },
    /// A multiplier is below 0.
    Negative {
        alternative: u32,
        edge: u32,
        row: u32,
    },
    /// A proof names a premise that there is not.
    Index {
        alternative: u32,
        edge: u32,
        row: u32,
    },
    /// A number is not in range, of the row carried back or of the total of its proof.
    Past {
        alternative: u32,
        edge: u32,
        row: u32,
    },
    /// The total is 0 or more.
    NotBelow {
        alternative: u32,
        edge: u32,
        row: u32,
    },
    /// The total has a variable, this one and none before it.
    Left {
        alternative: u32,
        edge: u32,
        row: u32,
        variable: u32,
    },
}
