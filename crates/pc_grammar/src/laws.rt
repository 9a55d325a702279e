//! What all that stands on parse trees cites of the grammar. Each law is the contract of a function
//! that does nothing.

ghost use Rattle.pc_grammar.specs.Programs.{programs};
ghost use Rattle.pc_grammar.specs.Parallels.{parallels};
ghost use Rattle.pc_grammar.specs.Laws.{GrammarIsUnambiguous, AnswersExist, AnswersAreUnique, ComputedIsMeant};

/// Symbols derive one program at most, and one source with several processes at most.
pub fn grammar_is_unambiguous()
    ensures programs { GrammarIsUnambiguous programs }
    ensures parallels { GrammarIsUnambiguous parallels }
{}

/// Every list of symbols, whatever they are, means exactly one answer: its tree, or one fault at one
/// place; both as a program and as several processes. The definition of that answer says so of derivations and limits alone, and the executable
/// function `parsed` computes it.
pub fn symbols_have_one_answer()
    ensures exists { AnswersExist programs }
    ensures unique { AnswersAreUnique programs }
    ensures computed { ComputedIsMeant programs }
    ensures parallel_exists { AnswersExist parallels }
    ensures parallel_unique { AnswersAreUnique parallels }
    ensures parallel_computed { ComputedIsMeant parallels }
{}
