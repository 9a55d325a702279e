//! Certificates, read from their texts.

ghost use Rattle.std.specs.Prelude.{◌≡◌, ◌≤◌, ◌<◌, ◌-◌, ◌^◌, true, length, IfOk};
ghost use Rattle.pc_certificate.specs.Certificate.{Certificate as Claim};
ghost use Rattle.pc_lines.specs.Answers.{Gives, Reads};
ghost use Rattle.pc_lines.specs.Kinds.{AreSmall};
ghost use Rattle.pc_lines.specs.Readers.{line_value, repeated, whole as nothing_behind};
ghost use Rattle.pc_text.specs.Words.{words};
ghost use Rattle.pc_cert.specs.Answers.{Means};
ghost use Rattle.pc_cert.specs.CertificateTexts.{IsTextOf};
ghost use Rattle.pc_cert.specs.Faults as wanted;
ghost use Rattle.pc_cert.specs.Readers as spec;

use pc_certificate::{ALTERNATIVES, Annotated, Certificate, EDGES, POINTS};
use pc_lines::{CertFault, Reader, Sizes, proofs, rows};
use pc_rows::{PREMISES, Proof, ROWS, Rows, VARIABLES};
use sqlite_items::Items;
use std::alloc::Global;

/// The rows of point `p`, behind the line that tells how many they are.
fn point(alloc: Global, lines: &mut Reader, variables: u32, p: u32) -> Result<Rows, CertFault>
    requires variables { variables ≤ VARIABLES }
    requires number { p < 2 ^ 32 - 1 }
    ensures { Reads (spec.point_reader variables p lines.old) result lines.new }
{
    let count = lines.head(b"point", p, ROWS)?;
    rows(alloc, lines, variables, count)
}

/// The rows of so many points.
fn points(alloc: Global, lines: &mut Reader, sizes: Sizes) -> Result<Items<Rows>, CertFault>
    requires { sizes.variables ≤ VARIABLES }
    ensures { Reads (repeated (spec.point_reader sizes.variables) 0 sizes.points lines.old) result lines.new }
{
    let mut points = Items::new(alloc);
    'points: for p in 0..sizes.points {
        points.push(point(alloc, lines, sizes.variables, p)?)?;
    }
    Ok(points)
}

/// The proofs of edge `e`, behind the line that tells how many they are.
fn edge(alloc: Global, lines: &mut Reader, e: u32) -> Result<Items<Proof>, CertFault>
    requires { e < 2 ^ 32 - 1 }
    ensures { Reads (spec.edge_reader e lines.old) result lines.new }
{
    let count = lines.head(b"edge", e, PREMISES)?;
    proofs(alloc, lines, PREMISES as u32, count)
}

/// The proofs of so many edges.
fn edges(alloc: Global, lines: &mut Reader, count: u32) -> Result<Items<Items<Proof>>, CertFault>
    ensures { Reads (repeated spec.edge_reader 0 count lines.old) result lines.new }
{
    let mut edges = Items::new(alloc);
    'edges: for e in 0..count {
        edges.push(edge(alloc, lines, e)?)?;
    }
    Ok(edges)
}

/// What stands behind the line that begins an alternative.
fn annotated(alloc: Global, lines: &mut Reader, sizes: Sizes) -> Result<Annotated, CertFault>
    requires { sizes.variables ≤ VARIABLES }
    ensures { Reads (spec.annotated_reader sizes lines.old) result lines.new }
{
    let rows = points(alloc, lines, sizes)?;
    let proofs = edges(alloc, lines, sizes.edges)?;
    Ok(Annotated { rows, proofs })
}

/// Whether line `number` begins an alternative behind so many others, and is not the end.
fn begins_at(line: &[u8], others: usize, number: u32) -> Result<bool, CertFault>
    ensures value { result ≡ line_value (wanted.next others) spec.goes_on number (words line.now) }
    ensures room { IfOk result (λ more. more ≡ true → others < ALTERNATIVES) }
{
    if line == b"end".as_slice() {
        return Ok(false);
    }
    if !(line == b"alternative".as_slice()) {
        return Err(CertFault::Form(number));
    }
    if others < ALTERNATIVES {
        Ok(true)
    } else {
        Err(CertFault::Number(number))
    }
}

/// Whether an alternative begins behind so many others; else the end was read.
fn begins(lines: &mut Reader, others: usize) -> Result<bool, CertFault>
    ensures reads { Reads (spec.begins others lines.old) result lines.new }
    ensures room { IfOk result (λ more. more ≡ true → others < ALTERNATIVES) }
{
    let (number, line) = lines.line()?;
    begins_at(line, others, number)
}

/// The alternatives, and the end behind them.
fn alternatives(
    alloc: Global,
    lines: &mut Reader,
    sizes: Sizes,
) -> Result<Items<Annotated>, CertFault>
    requires { sizes.variables ≤ VARIABLES }
    ensures reads { Reads (spec.alternatives_reader sizes 0 ALTERNATIVES lines.old) result lines.new }
    ensures few { IfOk result (λ all. length all ≤ ALTERNATIVES) }
{
    let mut all = Items::new(alloc);
    'alternatives: while begins(lines, all.len())? {
        all.push(annotated(alloc, lines, sizes)?)?;
    }
    Ok(all)
}

/// The greatest sizes of a certificate.
fn limits() -> Sizes
    ensures value { result ≡ wanted.limits }
    ensures small { AreSmall result }
{
    Sizes {
        points: POINTS,
        edges: EDGES,
        variables: VARIABLES as u32,
    }
}

/// The certificate that is left, and nothing behind it.
fn whole(alloc: Global, lines: Reader) -> Result<Certificate, CertFault>
    ensures { Gives (nothing_behind spec.certificate_reader lines.entry) result }
{
    let mut lines = lines;
    lines.just(b"precond 1")?;
    let sizes = lines.sizes(limits())?;
    let alternatives = alternatives(alloc, &mut lines, sizes)?;
    lines.end()?;
    Ok(Certificate {
        points: sizes.points,
        edges: sizes.edges,
        variables: sizes.variables,
        alternatives,
    })
}

/// The certificate whose text `src` is.
///
/// Where it is the text of none, the first line at fault is told. `Form`: it has not the words and
/// numerals that are wanted behind the lines before it, or no line feed, or is missing; then its
/// number is that of the next line. `Number`: it has, and breaks a rule on its numbers. `Trailing`:
/// it stands behind the end.
pub fn read_certificate(alloc: Global, src: &[u8]) -> Result<Certificate, CertFault>
    requires { length src.now < 2 ^ 32 - 1 }
    ensures means { Means src.now result }
    ensures only { (c : Claim) → IsTextOf src.now c → Gives (Ok c) result }
{
    whole(alloc, Reader::new(src))
}
