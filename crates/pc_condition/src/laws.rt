//! Laws of the texts of conditions.

ghost use Rattle.pc_condition.specs.Law.{LinesDetermineRows, TextDeterminesCondition};

/// Over the same names, and behind the same word, no two lists of rows have the same lines.
pub fn lines_determine_rows()
    ensures { LinesDetermineRows }
{}

/// Over the same names, no two conditions have one text.
pub fn text_determines_condition()
    ensures { TextDeterminesCondition }
{}
