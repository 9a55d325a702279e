//! What assignments do.

ghost use Rattle.std.specs.Prelude.{◌≡◌, ◌<◌, ◌≤◌, true};
ghost use Rattle.pc_rows.specs.declared.row.TheConstants.{VARIABLES};
ghost use Rattle.pc_program.specs.Sane.{sane_right};
ghost use Rattle.pc_flow.specs.Arc.{IsFit};
ghost use Rattle.pc_graph.specs.Lowering.{assigned, low_end, high_end};

use pc_flow::What;
use pc_language::{Bound, Choice};
use pc_program::{Right, form_of};
use std::alloc::Global;

/// What an assignment does.
pub(crate) fn assigned(alloc: Global, n: u32, var: u32, right: &Right) -> What
    requires few { n ≤ VARIABLES }
    requires variable { var < n }
    requires sane { sane_right n right.now ≡ true }
    ensures value { result ≡ assigned var right.now }
    ensures fit { IsFit (assigned var right.now) }
{
    let form = form_of(alloc, &right.expr);
    What::Set {
        var,
        form,
        lo: low_end(&right.choice),
        hi: high_end(&right.choice),
    }
}

/// The lower end of a choice, or 0.
fn low_end(choice: &Option<Choice>) -> Bound
    ensures { result ≡ low_end choice.now }
{
    match choice {
        Some(choice) => choice.lo,
        None => Bound::At(0),
    }
}

/// The upper end of a choice, or 0.
fn high_end(choice: &Option<Choice>) -> Bound
    ensures { result ≡ high_end choice.now }
{
    match choice {
        Some(choice) => choice.hi,
        None => Bound::At(0),
    }
}
