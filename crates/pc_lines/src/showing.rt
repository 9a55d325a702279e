//! The texts of lines.

ghost use Rattle.std.specs.Prelude.{◌≡◌, ◌≤◌, ◌++◌, [], ◌∷◌, codes, OnOk, pos};
ghost use Rattle.pc_lines.specs.Texts.{counts, sizes_line, row_line, proof_line, line_text};
ghost use Rattle.pc_rows.specs.Evidence.{IsProof};
ghost use Rattle.pc_text.specs.Numerals.{numeral};

use crate::sizes::Sizes;
use pc_rows::{Proof, Row, VARIABLES};
use pc_text::{NoMemory, Text};

/// Appends a further numeral of a line.
fn push_further(text: &mut Text, number: i128) -> Result<(), NoMemory>
    ensures { OnOk result (text.new ≡ text.old ++ (codes " " ++ numeral number)) }
{
    text.push(b' ')?;
    text.push_number(number)
}

/// Appends a further count of a line.
fn push_count(text: &mut Text, count: u32) -> Result<(), NoMemory>
    ensures { OnOk result (text.new ≡ text.old ++ (codes " " ++ numeral (pos count))) }
{
    push_further(text, i128::from(count))
}

/// Appends the line that names the sizes of a graph.
pub fn push_sizes(text: &mut Text, sizes: Sizes) -> Result<(), NoMemory>
    ensures { OnOk result (text.new ≡ text.old ++ line_text (sizes_line sizes)) }
{
    text.push_all(b"graph")?;
    push_count(text, sizes.points)?;
    push_count(text, sizes.edges)?;
    push_count(text, sizes.variables)?;
    text.push(b'\n')
}

/// Appends the line of a name, a running number and how many lines follow.
pub fn push_head(text: &mut Text, name: &[u8], number: usize, count: usize) -> Result<(), NoMemory>
    ensures { OnOk result (text.new ≡ text.old ++ line_text (counts name.now (number ∷ count ∷ []))) }
{
    text.push_all(name)?;
    push_further(text, number as i128)?;
    push_further(text, count as i128)?;
    text.push(b'\n')
}

/// Appends the line of a row over so many variables.
pub fn push_row(text: &mut Text, r: &Row, variables: u32) -> Result<(), NoMemory>
    requires { variables ≤ VARIABLES }
    ensures { OnOk result (text.new ≡ text.old ++ line_text (row_line variables r.now)) }
{
    text.push_number(r.constant())?;
    'variables: for v in 0..variables {
        push_further(text, r.coefficient(v))?;
    }
    text.push(b'\n')
}

/// Appends the line of a proof.
pub fn push_proof(text: &mut Text, p: &Proof) -> Result<(), NoMemory>
    ensures proof { IsProof p.now }
    ensures added { OnOk result (text.new ≡ text.old ++ line_text (proof_line p.now)) }
{
    text.push_number(p.goal().get())?;
    let parts = p.parts();
    'parts: for i in 0..parts.len() {
        let part = parts.at(i);
        push_count(text, part.index)?;
        push_further(text, part.multiplier.get())?;
    }
    text.push(b'\n')
}
