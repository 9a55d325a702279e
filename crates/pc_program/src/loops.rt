//! The first loop of a program.

ghost use Rattle.std.specs.Prelude.{◌≡◌};
ghost use Rattle.pc_program.specs.Loops.{first, whiles, whiles_of};

use crate::program::Program;
use crate::tree::Stmt;
use pc_text::Place;

/// The place of the first `while` in the text, nothing exactly where there is none. It needs no memory.
pub fn first_loop(p: &Program) -> Option<Place>
    ensures { result ≡ first (whiles_of p.now.body) }
{
    first_in(p.body.as_slice())
}

/// The place of the first loop of statements.
#[cycle(loops)]
fn first_in(list: &[Stmt]) -> Option<Place>
    ensures { result ≡ first (whiles_of list.now) }
{
    for s in list {
        if let Some(place) = first_of(s) {
            return Some(place);
        }
    }
    None
}

/// The place of the first loop of a statement.
#[cycle(loops)]
fn first_of(s: &Stmt) -> Option<Place>
    ensures { result ≡ first (whiles s.now) }
{
    match s {
        Stmt::Set { .. } => None,
        Stmt::If {
            then_part,
            else_part,
            ..
        } => match first_in(then_part.as_slice()) {
            Some(place) => Some(place),
            None => first_in(else_part.as_slice()),
        },
        Stmt::While { place, .. } => Some(*place),
        Stmt::Assert { .. } => None,
        Stmt::Assume { .. } => None,
    }
}
