//! Runs of programs.

ghost use Rattle.std.specs.Prelude.{◌≡◌, ◌+◌, ◌-◌, length, IfOk};
ghost use Rattle.pc_program.specs.Machine.{started};
ghost use Rattle.pc_runner.specs.Verdicts.{verdict_of};
ghost use Rattle.pc_runner.specs.Runs.{SaysOf};
ghost use Rattle.pc_runner.specs.declared.verdict.Verdict.{Verdict};

use crate::machine::{Step, take_step};
use crate::script::Script;
use crate::verdict::Verdict;
use pc_program::Program;
use pc_text::NoMemory;
use sqlite_items::Items;
use std::alloc::{AllocError, Global};

/// Runs a program on a script: its parameters start at the entry values, its locals at 0, and each
/// step takes the next choice.
///
/// The verdict is the first step that ends the run or needs a value that is not in range. Of the
/// values of a step the first counts: subterms from the left, inner before outer, the sum with a
/// choice last, and comparisons in order up to the first that fails.
pub fn run(alloc: Global, program: &Program, script: &Script) -> Result<Verdict, NoMemory>
    requires { length script.now.entry ≡ program.now.names.params }
    ensures says { IfOk result (λ verdict. SaysOf program.now script.now.entry script.now.choices verdict) }
    ensures only { (verdict : Verdict) → SaysOf program.now script.now.entry script.now.choices verdict → IfOk result (λ given. given ≡ verdict) }
    ensures computed { IfOk result (λ verdict. verdict ≡ verdict_of program.now script.now.entry script.now.choices) }
{
    match verdict_of(alloc, program, script) {
        Ok(verdict) => Ok(verdict),
        Err(_) => Err(NoMemory),
    }
}

fn verdict_of(alloc: Global, program: &Program, script: &Script) -> Result<Verdict, AllocError>
    ensures { IfOk result (λ verdict. verdict ≡ verdict_of program.now script.now.entry script.now.choices) }
{
    let mut state = state_at_start(alloc, program, script)?;
    let mut stack = Vec::new(alloc);
    stack.push(program.body.as_slice())?;
    let mut step: u32 = 0;
    for choice in script.choices.as_slice() {
        step += 1;
        match take_step(&mut stack, &mut state, *choice)? {
            Step::Going => {}
            Step::Violated(place) => return Ok(Verdict::Violated { step, place }),
            Step::Blocked(place) => return Ok(Verdict::Blocked { step, place }),
            Step::Ended => return Ok(Verdict::Ended { step }),
            Step::Past(place) => return Ok(Verdict::Past { step, place }),
        }
    }
    Ok(Verdict::Going { state })
}

/// The entry values, and 0 for each local.
fn state_at_start(
    alloc: Global,
    program: &Program,
    script: &Script,
) -> Result<Items<i128>, AllocError>
    ensures { IfOk result (λ state. state ≡ started program.now script.now.entry) }
{
    let mut state = Items::from_slice(alloc, script.entry.as_slice())?;
    let locals = program.names.len() - program.names.params();
    'locals: for _ in 0..locals {
        state.push(0)?;
    }
    Ok(state)
}
