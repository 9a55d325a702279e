//! The line that tells how large a made source is, and what came out.

ghost use Rattle.std.specs.Prelude.{◌≡◌, ◌++◌, OnOk, OnErr, IfOk};
ghost use Rattle.pc_gen.specs.Summary.{size_text, summary_text};

use crate::pieces::push_counted;
use pc_text::{NoMemory, Text};
use std::alloc::Global;

/// What is told of a made source.
#[derive(Clone, Copy, Debug)]
pub struct Summary {
    /// How many loops it has.
    pub loops: u32,
    /// How many bytes its text has.
    pub bytes: usize,
    /// How many points its graph has.
    pub points: u32,
    /// How many edges its graph has.
    pub edges: u32,
    /// How many alternatives its condition has: none where that is `false`.
    pub alternatives: usize,
}

/// The line of a summary.
fn line_of(alloc: Global, summary: Summary) -> Result<Text, NoMemory>
    ensures { IfOk result (λ text. text ≡ summary_text summary) }
{
    let mut text = Text::new(alloc);
    push_counted(&mut text, b"trial ", summary.loops as usize, b": ")?;
    push_size(&mut text, summary)?;
    push_counted(&mut text, b"", summary.alternatives, b" alternatives\n")?;
    Ok(text)
}

/// Adds the line of a summary. Where memory is wanting, the text stays as it was.
pub fn push_summary(alloc: Global, text: &mut Text, summary: Summary) -> Result<(), NoMemory>
    ensures added { OnOk result (text.new ≡ text.old ++ summary_text summary) }
    ensures unchanged { OnErr result (text.new ≡ text.old) }
{
    // The line is built apart, so that a push that fails half way leaves `text` alone.
    let line = line_of(alloc, summary)?;
    text.push_all(line.bytes())
}

/// Adds how large the source is.
fn push_size(text: &mut Text, summary: Summary) -> Result<(), NoMemory>
    ensures { OnOk result (text.new ≡ text.old ++ size_text summary) }
{
    push_counted(text, b"", summary.bytes, b" bytes, ")?;
    push_counted(text, b"", summary.points as usize, b" points, ")?;
    push_counted(text, b"", summary.edges as usize, b" edges, ")
}
