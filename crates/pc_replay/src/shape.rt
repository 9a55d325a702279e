//! Whether a certificate has the shape that its graph asks for.

ghost use Rattle.std.specs.Prelude.{◌≡◌};
ghost use Rattle.std.specs.List.{list_all};
ghost use Rattle.pc_replay.specs.Shape.{is_over, first_beyond, are_over, is_shaped, has_shape};

use pc_certificate::{Annotated, Certificate};
use pc_flow::Graph;
use pc_rows::{Row, Rows, VARIABLES};

/// Whether no coefficient from variable `n` on is other than 0.
fn is_over(n: u32, r: &Row) -> bool
    ensures { result ≡ is_over n r.now }
{
    let _row = r.constant();
    for v in n..VARIABLES as u32 {
        if r.coefficient(v) != 0 {
            return false;
        }
    }
    true
}

/// The first row with a variable from number `n` on.
pub fn first_beyond(n: u32, rows: &Rows) -> Option<u32>
    ensures { result ≡ first_beyond n rows.now }
{
    for i in 0..rows.len() {
        if !is_over(n, rows.at(i)) {
            return Some(i as u32);
        }
    }
    None
}

/// Whether no row has a variable from number `n` on.
pub fn are_over(n: u32, rows: &Rows) -> bool
    ensures { result ≡ are_over n rows.now }
{
    first_beyond(n, rows).is_none()
}

/// Whether no row of any point has a variable from number `n` on.
fn all_over(n: u32, all: &[Rows]) -> bool
    ensures { result ≡ list_all (are_over n) all.now }
{
    all.iter().all(|rows| are_over(n, rows))
}

/// Whether an alternative has rows for each point and proofs for each edge, and no row has a
/// variable that the certificate lacks.
fn is_shaped(points: u32, edges: u32, variables: u32, a: &Annotated) -> bool
    ensures { result ≡ is_shaped points edges variables a.now }
{
    a.rows.len() == points as usize
        && a.proofs.len() == edges as usize
        && all_over(variables, a.rows.as_slice())
}

/// Whether each alternative has its lists.
fn all_shaped(points: u32, edges: u32, variables: u32, all: &[Annotated]) -> bool
    ensures { result ≡ list_all (is_shaped points edges variables) all.now }
{
    all.iter().all(|a| is_shaped(points, edges, variables, a))
}

/// Whether a certificate is for a graph with these points, edges and variables, and each
/// alternative has its lists.
pub fn has_shape(g: &Graph, c: &Certificate) -> bool
    ensures { result ≡ has_shape g.now c.now }
{
    c.points == g.points()
        && c.edges == g.edges()
        && c.variables == g.variables()
        && all_shaped(c.points, c.edges, c.variables, c.alternatives.as_slice())
}
