//! How long texts may be, as the contract of a function that does nothing.

ghost use Rattle.pc_cert.specs.Lengths.{TextsAreShort};

/// The text of a certificate takes no more bytes than lines of the longest numerals do, where each edge
/// owes no more rows, or has no more premises, than a point may have rows. So it is of every certificate
/// that is right for a graph: a test alone adds premises, and an assertion alone adds rows that are owed.
pub fn texts_are_short()
    ensures { TextsAreShort }
{}
