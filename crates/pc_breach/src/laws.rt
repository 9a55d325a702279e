//! What the answers promise of walks and of runs, as contracts of functions that do nothing.

ghost use Rattle.pc_breach.specs.Laws.{AnswersAreMeant, ChoicesAreFit, RunsAreMeant};
ghost use Rattle.pc_breach.specs.Scripts.{ScriptIsRead};
ghost use Rattle.pc_breach.specs.Sought.{PlacesAreMeant};

/// An entry state that meets the rows of the entry is safe, and from any other a walk takes the choices to an assertion that
/// does not hold.
pub fn answers_are_meant()
    ensures { AnswersAreMeant }
{}

/// A program without loops, assumptions, tests but `*` and open ends is safe from an entry state that meets the rows of the
/// entry, and from any other its run over the choices violates an assertion.
pub fn runs_are_meant()
    ensures { RunsAreMeant }
{}

/// A program is straight exactly where it has no bend, and where it has no open end either, choices may be sought on its graph.
pub fn places_are_meant()
    ensures { PlacesAreMeant }
{}

/// The text of a script is read as its entry and its choices.
pub fn script_is_read()
    ensures { ScriptIsRead }
{}

/// The choices are in range, and no more than a script holds.
pub fn choices_are_fit()
    ensures { ChoicesAreFit }
{}
