//! What polyhedra promise beyond the laws of domains, as contracts of functions that do nothing.

ghost use Rattle.pc_poly.specs.Laws.{ViewsTell, ListIsMeant, ChainsAreExact};

/// A view tells its value, and a state is in a value exactly where it meets the value's rows.
pub fn views_tell()
    ensures view { ViewsTell }
    ensures list { ListIsMeant }
{}

/// On a chain of tests and assertions with few rows the rows of a point tell which entry states reach it.
pub fn chains_are_exact()
    ensures { ChainsAreExact }
{}
