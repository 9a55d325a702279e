//! What needs and candidates promise, as contracts of functions that do nothing.

ghost use Rattle.pc_lower.specs.TameCourse.{TameCandidateFits, CandidatesAreNeeds};
ghost use Rattle.pc_lower.specs.Turns.{CandidateIsMeant};
ghost use Rattle.pc_lower.specs.Laws.{NeedIsMeant, AnnotationCovers, NeedIsComplete, NeedIsPaid, NeedIsOwed, NeedIsFree, TameNeedFits};

/// The need is the one annotation whose heads have the given rows, and whose other points have the rows that the edges
/// from them ask for.
pub fn need_is_meant()
    ensures { NeedIsMeant }
{}

/// At each edge from a point that is no head, the rows that the edge owes are covered by those of the point and of the
/// edge's test.
pub fn annotation_covers()
    ensures covers { AnnotationCovers }
    ensures complete { NeedIsComplete }
{}

/// Without loops the need pays every edge.
pub fn need_is_paid()
    ensures { NeedIsPaid }
{}

/// Without loops each row of the need is owed over some edge.
pub fn need_is_owed()
    ensures { NeedIsOwed }
{}

/// Without loops the need does not depend on the rows that are given for heads.
pub fn need_is_free()
    ensures { NeedIsFree }
{}

/// Without loops and with tame numbers no operation leaves the range or has a row too many.
pub fn tame_need_fits()
    ensures { TameNeedFits }
{}

/// The candidate of a mode is the one annotation that its rounds make: turn by turn, each head gets what its edges owe.
pub fn candidate_is_meant()
    ensures { CandidateIsMeant }
{}

/// Where the rows of each turn, of each steady test and of the candidate are tame, no operation leaves the range or has a
/// row too many.
pub fn tame_candidate_fits()
    ensures { TameCandidateFits }
{}

/// Without loops the candidate of every mode is the need, and it is tame for a mode exactly where the graph is tame.
pub fn candidates_are_needs()
    ensures { CandidatesAreNeeds }
{}
