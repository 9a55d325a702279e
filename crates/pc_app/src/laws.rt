//! What certificates for its graph promise of a program, as contracts of functions that do nothing.

ghost use Rattle.pc_app.specs.Programs.{AcceptedProgramsAreSafe, InferIsExact};

/// Where a certificate is right for a program's graph, the program is safe from every entry state
/// that meets the certificate's condition.
pub fn accepted_programs_are_safe()
    ensures { AcceptedProgramsAreSafe }
{}

/// The condition that is inferred of a program without loops, assumptions and tests but `*`, and
/// with tame numbers, holds of exactly the safe entry states: from any other some choices violate
/// an assertion.
pub fn infer_is_exact()
    ensures { InferIsExact }
{}
