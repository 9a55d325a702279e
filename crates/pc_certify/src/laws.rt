//! What inference promises of graphs, as the contract of a function that does nothing.

ghost use Rattle.pc_certify.specs.Laws.{InferIsExactOnGraphs};

/// On a graph without tests and loops and with tame numbers, an entry state that does not meet what
/// is inferred has a walk to an assertion that does not hold.
pub fn infer_is_exact_on_graphs()
    ensures { InferIsExactOnGraphs }
{}
