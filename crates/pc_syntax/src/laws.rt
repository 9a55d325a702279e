//! What all that stands on programs cites of them. Each law is the contract of a function that
//! does nothing.

ghost use Rattle.pc_syntax.specs.Kept.{WalksAreSane};
ghost use Rattle.pc_syntax.specs.Spelling.{EachTextHasOne, EachTextHasNoMore};

/// What the walk makes of a parse tree keeps the context rules.
pub fn walks_are_sane()
    ensures { WalksAreSane }
{}

/// Each text spells one program or has one fault.
pub fn texts_have_one_answer()
    ensures one { EachTextHasOne }
    ensures no_more { EachTextHasNoMore }
{}
