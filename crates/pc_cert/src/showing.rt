//! The text of a certificate.

ghost use Rattle.std.specs.Prelude.{◌≡◌, ◌≤◌, ◌++◌, OnOk, IfOk};
ghost use Rattle.std.specs.List.{AllByRecursion, flat_map};
ghost use Rattle.pc_rows.specs.Joins.{IsRows};
ghost use Rattle.pc_rows.specs.Evidence.{IsProof};
ghost use Rattle.pc_lines.specs.Texts.{line_text, lines_text, numbered, sizes_line};
ghost use Rattle.pc_certificate.specs.Certificate.{IsShowable, IsAnnotated};
ghost use Rattle.pc_cert.specs.CertificateTexts.{point_lines, edge_lines, alternative_lines, version_line, sizes_in, IsTextOf};

use pc_certificate::{Annotated, Certificate};
use pc_lines::{Sizes, push_head, push_proof, push_row, push_sizes};
use pc_rows::{Proof, Rows, VARIABLES};
use pc_text::{NoMemory, Text};
use sqlite_items::Items;
use std::alloc::Global;

/// Appends the lines of point `p`.
fn push_point(text: &mut Text, variables: u32, p: usize, rows: &Rows) -> Result<(), NoMemory>
    requires { variables ≤ VARIABLES }
    ensures rows { IsRows rows.now }
    ensures added { OnOk result (text.new ≡ text.old ++ lines_text (point_lines variables p rows.now)) }
{
    push_head(text, b"point", p, rows.len())?;
    'rows: for i in 0..rows.len() {
        push_row(text, rows.at(i), variables)?;
    }
    Ok(())
}

/// Appends the lines of edge `e`.
fn push_edge(text: &mut Text, e: usize, proofs: &[Proof]) -> Result<(), NoMemory>
    ensures proofs { OnOk result (AllByRecursion IsProof proofs.now) }
    ensures added { OnOk result (text.new ≡ text.old ++ lines_text (edge_lines e proofs.now)) }
{
    push_head(text, b"edge", e, proofs.len())?;
    'proofs: for p in proofs {
        push_proof(text, p)?;
    }
    Ok(())
}

/// Appends the lines of points.
fn push_points(text: &mut Text, variables: u32, points: &[Rows]) -> Result<(), NoMemory>
    requires { variables ≤ VARIABLES }
    ensures rows { OnOk result (AllByRecursion IsRows points.now) }
    ensures added { OnOk result (text.new ≡ text.old ++ lines_text (numbered (point_lines variables) 0 points.now)) }
{
    'points: for p in 0..points.len() {
        push_point(text, variables, p, &points[p])?;
    }
    Ok(())
}

/// Appends the lines of edges.
fn push_edges(text: &mut Text, edges: &[Items<Proof>]) -> Result<(), NoMemory>
    ensures proofs { OnOk result (AllByRecursion (AllByRecursion IsProof) edges.now) }
    ensures added { OnOk result (text.new ≡ text.old ++ lines_text (numbered edge_lines 0 edges.now)) }
{
    'edges: for e in 0..edges.len() {
        push_edge(text, e, edges[e].as_slice())?;
    }
    Ok(())
}

/// Appends the lines of an alternative.
fn push_alternative(text: &mut Text, variables: u32, a: &Annotated) -> Result<(), NoMemory>
    requires { variables ≤ VARIABLES }
    ensures kept { OnOk result (IsAnnotated a.now) }
    ensures added { OnOk result (text.new ≡ text.old ++ lines_text (alternative_lines variables a.now)) }
{
    text.push_all(b"alternative\n")?;
    push_points(text, variables, a.rows.as_slice())?;
    push_edges(text, a.proofs.as_slice())
}

/// Appends the lines with the version and the sizes.
fn push_start(text: &mut Text, c: &Certificate) -> Result<(), NoMemory>
    ensures { OnOk result (text.new ≡ text.old ++ (line_text version_line ++ line_text (sizes_line (sizes_in c.now)))) }
{
    text.push_all(b"precond 1\n")?;
    let sizes = Sizes {
        points: c.points,
        edges: c.edges,
        variables: c.variables,
    };
    push_sizes(text, sizes)
}

/// Appends the lines of alternatives.
fn push_alternatives(
    text: &mut Text,
    variables: u32,
    alternatives: &[Annotated],
) -> Result<(), NoMemory>
    requires { variables ≤ VARIABLES }
    ensures kept { OnOk result (AllByRecursion IsAnnotated alternatives.now) }
    ensures added { OnOk result (text.new ≡ text.old ++ lines_text (flat_map (alternative_lines variables) alternatives.now)) }
{
    'alternatives: for i in 0..alternatives.len() {
        push_alternative(text, variables, &alternatives[i])?;
    }
    Ok(())
}

/// The text of a certificate, which [`read_certificate`](crate::read_certificate) reads back.
///
/// It has the sizes that it names, is over its variables, and keeps the limits of certificates that
/// are read.
pub fn show_certificate(alloc: Global, c: &Certificate) -> Result<Text, NoMemory>
    requires { IsShowable c.now }
    ensures { IfOk result (λ text. IsTextOf text c.now) }
{
    let mut text = Text::new(alloc);
    push_start(&mut text, c)?;
    push_alternatives(&mut text, c.variables, c.alternatives.as_slice())?;
    text.push_all(b"end\n")?;
    Ok(text)
}
