//! What the words `run` are answered: verdicts on runs.

ghost use Rattle.std.specs.Prelude.{◌≡◌, ◌≤◌, ℕ, List};
ghost use Rattle.pc_app.specs.Kinds.{script_kind};
ghost use Rattle.pc_app.specs.Run.{RunSays, run};
ghost use Rattle.pc_app.specs.Reading.{TaskIs, RestIs};

use crate::answer::{Answer, Stop};
use crate::files::{script_in, source_in};
use crate::verdict::answer_of_verdict;
use pc_ports::Store;
use pc_program::Program;
use pc_runner::run;
use std::alloc::Global;

/// The answer to `run`.
pub(crate) fn answer_to_run<S: Store>(
    alloc: Global,
    source: &str,
    script: &str,
    store: &mut S,
) -> Result<Answer, Stop>
    ensures answered { TaskIs (S.holding store.old) (S.faults store.old) (S.faults store.new) (run source.now script.now) result }
    ensures kept { (name : List ℕ) → S.holding store.new name ≡ S.holding store.old name }
{
    let program = source_in(alloc, source, store)?;
    run_program(alloc, &program, script, store)
}

/// The answer to `run` on a program.
fn run_program<S: Store>(
    alloc: Global,
    program: &Program,
    script: &str,
    store: &mut S,
) -> Result<Answer, Stop>
    ensures answered { RestIs (script_kind program.now.names.params) (RunSays program.now) (S.holding store.old script.now) (S.faults store.old) (S.faults store.new) result }
    ensures counted { S.faults store.old ≤ S.faults store.new }
    ensures kept { (name : List ℕ) → S.holding store.new name ≡ S.holding store.old name }
{
    let script = script_in(alloc, script, program.names.params(), store)?;
    let verdict = run(alloc, program, &script)?;
    Ok(answer_of_verdict(alloc, &program.names, script.choices.len(), &verdict)?)
}
