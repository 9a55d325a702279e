//! The laws of canonical texts and of made sources.

ghost use Rattle.pc_readback.specs.MadeLaws.{MadeSpells};
ghost use Rattle.pc_readback.specs.CutTexts.{CanonicalTextsAreCut};
ghost use Rattle.pc_readback.specs.ReadsBack.{ShowReadsBack, NothingElseReadsBack, SpelledAreShowable, TextsLeaveOutPlaces};

/// What a text spells is showable: its names are names of the language, and its canonical text is
/// within the limits.
pub fn spelled_are_showable()
    ensures { SpelledAreShowable }
{}

/// The canonical text of a showable program has the tokens of its pieces.
pub fn canonical_texts_are_cut()
    ensures { CanonicalTextsAreCut }
{}

/// Programs that are the same apart from places have one canonical text.
pub fn texts_leave_out_places()
    ensures { TextsLeaveOutPlaces }
{}

/// The canonical text of a showable program spells the program, apart from places, and no other.
pub fn show_reads_back()
    ensures spelled { ShowReadsBack }
    ensures only { NothingElseReadsBack }
{}

/// Each made source spells a program.
pub fn made_sources_spell()
    ensures { MadeSpells }
{}
