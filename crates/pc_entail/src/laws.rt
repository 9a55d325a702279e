//! What all that stands on entailment cites of it. Each law is the contract of a function that
//! does nothing.

ghost use Rattle.pc_entail.specs.Found.{SettlesOnce};
ghost use Rattle.pc_entail.specs.Laws.{ShownRowsAreMet, ReductionsAreEqual, TestsAreKept};
ghost use Rattle.pc_entail.specs.Removal.{LeavesOnce};

/// Rows that are shown are met where the rows that show them are.
pub fn shown_rows_are_met()
    ensures { ShownRowsAreMet }
{}

/// Rows have one list of reduced rows.
pub fn reductions_are_equal()
    ensures { ReductionsAreEqual }
{}

/// What a test finds of each row it finds of each row that stays.
pub fn tests_are_kept()
    ensures { TestsAreKept }
{}

/// A question is settled in one way, and a list of rows leaves one list: what is found, and what is
/// left, are functions of what is asked.
pub fn answers_are_functions()
    ensures settled { SettlesOnce }
    ensures left { LeavesOnce }
{}
