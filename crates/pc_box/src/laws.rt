//! What boxes promise beyond the laws of domains, as contracts of functions that do nothing.

ghost use Rattle.pc_box.specs.Exact.{BoxesBackAreExact};
ghost use Rattle.pc_box.specs.Laws.{CuttingIsExact, FoldIsBoxAt, RowsAreBoxRows};

/// A cut keeps exactly the integers that meet the row.
pub fn cutting_is_exact()
    ensures { CuttingIsExact }
{}

/// Without loops the fold of the views of boxes over the edges in order is the box at each point.
pub fn fold_is_box_at()
    ensures fold { FoldIsBoxAt }
    ensures rows { RowsAreBoxRows }
{}

/// Without tests and loops, with small numbers and at most one variable in each form and each row of an assertion, the rows of
/// the entry are met by exactly the safe entry states.
pub fn boxes_back_are_exact()
    ensures { BoxesBackAreExact }
{}
