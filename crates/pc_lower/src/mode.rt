/// How the rows of the heads are found.
#[derive(Clone, Copy, Debug, PartialEq, Eq)]
pub enum Mode {
    /// Each head has the rows that its loop tries.
    Hint,
    /// Each head gathers what its edges owe. So do the modes that follow, but over the edges into the body of the loop with
    /// another row in place of one that is owed.
    Plain,
    /// The first row of the edge's test is subtracted from a row that is not steady.
    Tilt1,
    /// The second row of the test is.
    Tilt2,
    /// The negation of the test's first row takes the place of the row: it says that the loop is not entered.
    Escape,
}
