//! What the words `show` are answered: canonical texts.

ghost use Rattle.pc_app.specs.Show.{ShowPrints};

use crate::printing::Prints;
use pc_program::Program;
use pc_syntax::show;
use pc_text::{NoMemory, Text};
use std::alloc::Global;

/// `show F`.
#[derive(Drop)]
pub(crate) struct Canonical;

impl Prints for Canonical {
    ghost prints = { λ _. ShowPrints };

    fn text(&self, alloc: Global, program: &Program) -> Result<Text, NoMemory> {
        show(alloc, program)
    }
}
