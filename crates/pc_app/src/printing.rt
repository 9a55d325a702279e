//! Commands that print something of a program, whatever the program is.

ghost use Rattle.std.specs.Prelude.{◌≡◌, ℕ, List, IfOk};
ghost use Rattle.pc_program.specs.declared.program.Program.{Program};
ghost use Rattle.pc_app.specs.Inputs.{OneFile};
ghost use Rattle.pc_app.specs.Kinds.{source_kind};
ghost use Rattle.pc_app.specs.Tasks.{plain};
ghost use Rattle.pc_app.specs.Reading.{TaskIs};

use crate::answer::{Answer, Stop};
use crate::files::source_in;
use crate::status::DONE;
use pc_ports::Store;
use pc_program::Program;
use pc_text::{NoMemory, Text};
use std::alloc::Global;

/// What a command prints of a program.
pub(crate) trait Prints {
    /// The texts that it may print of a program.
    ghost prints: { Self → Program → List ℕ → Type 0 };

    /// The text that it prints of the program.
    fn text(&self, alloc: Global, program: &Program) -> Result<Text, NoMemory>
        ensures { IfOk result (prints self.now program.now) };
}

/// The answer of a command that prints something of the program which a source spells.
pub(crate) fn answer_to_source<S: Store, C: Prints>(
    alloc: Global,
    command: &C,
    source: &str,
    store: &mut S,
) -> Result<Answer, Stop>
    ensures answered { TaskIs (S.holding store.old) (S.faults store.old) (S.faults store.new) (plain (OneFile source_kind source.now) (C.prints command.now)) result }
    ensures kept { (name : List ℕ) → S.holding store.new name ≡ S.holding store.old name }
{
    let program = source_in(alloc, source, store)?;
    Ok(Answer {
        status: DONE,
        text: command.text(alloc, &program)?,
    })
}
