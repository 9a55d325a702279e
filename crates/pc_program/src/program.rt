ghost use Rattle.std.specs.Prelude.{◌≡◌, true};
ghost use Rattle.pc_program.specs.Sane.{is_sane};

use crate::tree::Stmts;
use pc_text::{Names, Place};

/// A program, which keeps the context rules. Its place is that of `entry`.
#[derive(Drop)]
pub struct Program {
    pub place: Place,
    pub names: Names,
    pub body: Stmts,
    pub ghost sane: { is_sane names body ≡ true },
}
