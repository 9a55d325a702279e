//! What all that stands on rows cites of them. Each law is the contract of a function that does
//! nothing.

ghost use Rattle.pc_rows.specs.Laws.{ValueOfConstant, ValueOfCoefficient, ValueAtZero, ValueOfSum, ValueOfDifference, ValueOfMultiple, ValueOfNegation, NegationIsExact, ValueOfAbove, AboveIsExact, ValueOfFirst, ZeroFromEntry, ValueAtEntry, ValueOfNumber, NumberIsMeant, SubstitutionIsExact, CoveringIsMeant, CoveredIsMet, JoinIsBoth, JoinIsWithin, SmallSubstitutionFits, FirstIsOver, SubstitutedIsOver, DifferenceIsOver, NegationIsOver, JoinIsOver, RangeIsMeant, ShownIsMet, RefutedIsNotShown};
ghost use Rattle.pc_rows.specs.Readers.{TermsAreCoefficients, SameTermsSameRow, WalksAgree};

/// The values of rows at a state.
pub fn row_values()
    ensures constant { ValueOfConstant }
    ensures coefficient { ValueOfCoefficient }
    ensures at_zero { ValueAtZero }
    ensures sum { ValueOfSum }
    ensures difference { ValueOfDifference }
    ensures multiple { ValueOfMultiple }
    ensures negation { ValueOfNegation }
    ensures above { ValueOfAbove }
    ensures number { ValueOfNumber }
{}

/// The negation of a row is met exactly where the row is not.
pub fn negation_is_exact()
    ensures { NegationIsExact }
{}

/// The row `a - b - 1` is met exactly where `a` is above `b`.
pub fn above_is_exact()
    ensures { AboveIsExact }
{}

/// What is left of a row where the variables from some number on are 0.
pub fn first_variables()
    ensures value { ValueOfFirst }
    ensures entry { ZeroFromEntry }
    ensures at_entry { ValueAtEntry }
{}

/// The states that meet a row carried back are those all of whose successors meet the row.
pub fn substitution_is_exact()
    ensures { SubstitutionIsExact }
{}

/// A covered row is met where the rows that cover it are.
pub fn covered_is_met()
    ensures { CoveredIsMet }
{}

/// To meet a join is to meet both lists.
pub fn join_is_both()
    ensures { JoinIsBoth }
{}

/// A join keeps bounds on numbers, and small rows are carried back without leaving the range.
pub fn bounds_are_kept()
    ensures join { JoinIsWithin }
    ensures substitution { SmallSubstitutionFits }
{}

/// No operation brings a variable that its rows have not.
pub fn variables_are_kept()
    ensures first { FirstIsOver }
    ensures substitution { SubstitutedIsOver }
    ensures difference { DifferenceIsOver }
    ensures negation { NegationIsOver }
    ensures join { JoinIsOver }
{}

/// The terms of a row say what its coefficients say.
pub fn terms_are_exact()
    ensures coefficients { TermsAreCoefficients }
    ensures same { SameTermsSameRow }
    ensures walk { WalksAgree }
{}

/// A goal that a proof shows is met where the premises are.
pub fn shown_is_met()
    ensures { ShownIsMet }
{}

/// Where a point refutes a system, no proof shows its goal.
pub fn refuted_is_not_shown()
    ensures { RefutedIsNotShown }
{}

/// The tests that definitions compute with say what is meant.
pub fn tests_are_meant()
    ensures covered { CoveringIsMeant }
    ensures range { RangeIsMeant }
    ensures number { NumberIsMeant }
{}
