//! The made source of a number of loops.

ghost use Rattle.std.specs.Prelude.{◌≡◌, ◌≤◌, ◌++◌, ◌↔◌, length, IsTrue, IfOk, OnOk};
ghost use Rattle.pc_gen.specs.Made.{IsLoops, loop_text, loops_text, made};

use crate::pieces::push_counted;
use pc_text::{NoMemory, Text};
use std::alloc::Global;

/// The most loops of a made source.
pub const LOOPS: u32 = 64;

/// How many bytes a made source has at most.
pub const MADE_BYTES: usize = 4_686;

const _: () = prove!(LOOPS == 64 && MADE_BYTES == 4_686);

/// Whether there is a made source with this many loops: from 1 to [`LOOPS`].
pub fn in_range(loops: u32) -> bool
    ensures { IsTrue result ↔ IsLoops loops }
{
    1 <= loops && loops <= LOOPS
}

/// The source with this many loops, one behind the other. The K-th counts to 10, and asserts each
/// time that its counter is at most K above the parameter.
#[tactic(auto, using(crate::proofs::Lengths::short))]
pub fn make(alloc: Global, loops: u32) -> Result<Text, NoMemory>
    requires { IsLoops loops }
    ensures text { IfOk result (λ text. text ≡ made loops) }
    ensures short { length (made loops) ≤ MADE_BYTES }
{
    let mut text = Text::new(alloc);
    text.push_all(b"entry (a) {\n  var i;\n")?;
    push_loops(&mut text, loops)?;
    text.push_all(b"}\n")?;
    Ok(text)
}

/// Adds so many loops.
fn push_loops(text: &mut Text, loops: u32) -> Result<(), NoMemory>
    ensures { OnOk result (text.new ≡ text.old ++ loops_text loops) }
{
    let mut done = 0;
    while done < loops {
        done += 1;
        push_loop(text, done)?;
    }
    Ok(())
}

/// Adds the loop of a number.
fn push_loop(text: &mut Text, number: u32) -> Result<(), NoMemory>
    ensures { OnOk result (text.new ≡ text.old ++ loop_text number) }
{
    push_counted(
        text,
        b"  i = 0;\n  while (i < 10) {\n    assert (i <= a + ",
        number as usize,
        b");\n    i = i + 1;\n  }\n",
    )
}
