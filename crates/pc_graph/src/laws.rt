//! What the graphs of programs promise, as contracts of functions that do nothing.

ghost use Rattle.pc_graph.specs.Choices.{ChoicesDrive};
ghost use Rattle.pc_graph.specs.Corresponds.{StepsCorrespond, RestsAreSafe};
ghost use Rattle.pc_graph.specs.Marks.{LoopsAreMarked};
ghost use Rattle.pc_graph.specs.Places.{PlacesAreTheirs};
ghost use Rattle.pc_graph.specs.Straight.{GraphsAreKept, LoopsHaveTheirHeads, ChecksStandAlone, StraightIsLoopFree, StraightGraphs, LoopFreeGraphs, PaidProgramsAreSafe, OwedIsViolated};

/// A program and its graph take the same steps.
pub fn steps_correspond()
    ensures { StepsCorrespond }
{}

/// What is still to be run at a point of a program's graph is safe from exactly the states in which no walk from the point comes
/// to an assertion that does not hold. At the entry these are states in which the locals are 0.
pub fn rests_are_safe()
    ensures { RestsAreSafe }
{}

/// The graph of a program keeps what every graph keeps.
pub fn graphs_are_kept()
    ensures { GraphsAreKept }
{}

/// No two loops of a program share a head.
pub fn loops_have_their_heads()
    ensures { LoopsHaveTheirHeads }
{}

/// An assertion of a program's graph is the only edge from its point.
pub fn checks_stand_alone()
    ensures { ChecksStandAlone }
{}

/// A loop of the program begins at each head of its graph, with the rows that the loop tries; the edges from the head lead into
/// the loop's body or past it, as their marks say, and no other edge is marked.
pub fn loops_are_marked()
    ensures { LoopsAreMarked }
{}

/// The entry and the start have the place of the program, and each other point that of the statement that made it.
pub fn places_are_theirs()
    ensures { PlacesAreTheirs }
{}

/// A program without loops, assumptions and tests but `*` has no loops.
pub fn straight_is_loop_free()
    ensures { StraightIsLoopFree }
{}

/// Without loops, assumptions and tests but `*` each edge of a program's graph leads up, and every state passes it unless
/// it is an assertion.
pub fn straight_graphs()
    ensures { StraightGraphs }
{}

/// Without loops the graph of a program has no heads.
pub fn loop_free_graphs()
    ensures { LoopFreeGraphs }
{}

/// Where each edge of a program's graph is paid by the rows of its source, the program is safe from the entry states that
/// meet the rows of the entry.
pub fn paid_programs_are_safe()
    ensures { PaidProgramsAreSafe }
{}

/// Without loops, assumptions and tests but `*` an entry state that breaks what is owed has choices that violate an
/// assertion.
pub fn owed_is_violated()
    ensures { OwedIsViolated }
{}

/// Without loops, assumptions and tests but `*` the choices along a walk drive the program to where the walk is, and one more
/// violates an assertion that leaves there and does not hold. Every walk has such choices.
pub fn choices_drive()
    ensures { ChoicesDrive }
{}
