//! What all that stands on programs cites of them. Each law is the contract of a function that
//! does nothing.

ghost use Rattle.pc_program.specs.Laws.{FormsAreRight, ComparisonsAreRows, ConjunctionsAreRows, UnequalsAreRows};

/// A normal form has the value of its expression at every state, and is in range.
pub fn forms_are_right()
    ensures { FormsAreRight }
{}

/// Rows say where comparisons and conjunctions hold.
pub fn rows_are_right()
    ensures comparison { ComparisonsAreRows }
    ensures conjunction { ConjunctionsAreRows }
    ensures unequal { UnequalsAreRows }
{}
