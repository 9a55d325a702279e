//! The certificate of a graph.

ghost use Rattle.std.specs.Prelude.{◌≡◌, ◌≤◌, [], true, false, length, IfOk};
ghost use Rattle.std.specs.List.{AllByRecursion};
ghost use Rattle.pc_flow.specs.Shape.{NoHeads, IsGraph};
ghost use Rattle.pc_lower.specs.declared.mode.Mode.{Mode};
ghost use Rattle.pc_certificate.specs.Certificate.{IsShowable, condition_of};
ghost use Rattle.pc_replay.specs.Accepts.{Accepts};
ghost use Rattle.pc_replay.specs.Laws.{IsSafe};
ghost use Rattle.pc_certify.specs.Candidates.{Candidate, IsTried};
ghost use Rattle.pc_certify.specs.Claims.{claim};
ghost use Rattle.pc_certify.specs.Selecting.{AreApart};
ghost use Rattle.pc_certify.specs.Inferring.{IsExact, Covers, IsAlternative, HasNone, AreAlternatives};

use crate::choice::choice_of_need;
use crate::lists::push;
use crate::loops::of_loops;
use pc_certificate::{Annotated, Certificate};
use pc_flow::Graph;
use pc_rows::NoMemory;
use sqlite_items::Items;
use std::alloc::Global;

/// The most alternatives of a certificate that is inferred.
pub const CANDIDATES: usize = 9;

/// The certificate of a graph. The candidates of the modes are tried in the order `Hint`, `Plain`,
/// `Tilt1`, `Tilt2`, `Escape`; then those of `Plain`, `Tilt1` and `Tilt2` with the rows that
/// polyhedra know at the heads, and then the rows that needs ask there, each completed. A graph
/// without loops has one candidate, the rows that each point needs. A candidate becomes an
/// alternative as follows.
///
/// 1. It is left out where its rows leave the range or are too many, or where they are not proved;
///    or where a row that comes from polyhedra or needs has a variable that the graph lacks.
/// 2. Its rows at the entry are reduced: without those that the others show; they stay as they are
///    where those that are left are not found to show what is owed there.
/// 3. It is left out where these rows are found to contradict each other.
/// 4. It is left out where these rows are found to show every row of an alternative that is kept.
/// 5. The kept alternatives whose rows are found to show every row of this one go, and it is kept as
///    the last.
pub fn infer(alloc: Global, g: &Graph) -> Result<Certificate, NoMemory>
    ensures accepted { IfOk result (Accepts g.now) }
    ensures safe { IfOk result (IsSafe g.now) }
    ensures showable { IfOk result IsShowable }
    ensures few { IfOk result (λ c. length c.alternatives ≤ CANDIDATES) }
    ensures one { IfOk result (λ c. NoHeads g.now.points → length c.alternatives ≤ 1) }
    ensures rows { IfOk result (λ c. AllByRecursion (IsAlternative g.now) c.alternatives) }
    ensures apart { IfOk result (λ c. AreApart c.alternatives) }
    ensures none { IfOk result (λ c. c.alternatives ≡ [] → (k : Candidate) → IsTried g.now k → HasNone g.now k) }
    ensures exact { IfOk result (λ c. NoHeads g.now.points → IsExact g.now c) }
    ensures covers { IfOk result (λ c. (m : Mode) → Covers g.now m (condition_of c)) }
{
    Ok(claim(g, alternatives(alloc, g)?))
}

/// The certificate of a graph with these alternatives.
fn claim(g: &Graph, alternatives: Items<Annotated>) -> Certificate
    requires { length alternatives ≤ CANDIDATES }
    ensures value { result ≡ claim g.now alternatives }
    ensures kept { IsGraph g.now }
{
    Certificate {
        points: g.points(),
        edges: g.edges(),
        variables: g.variables(),
        alternatives,
    }
}

/// The alternatives of a graph.
fn alternatives(alloc: Global, g: &Graph) -> Result<Items<Annotated>, NoMemory>
    ensures { IfOk result (AreAlternatives g.now) }
{
    if has_heads(g) {
        of_loops(alloc, g)
    } else {
        of_need(alloc, g)
    }
}

/// Whether a graph has loops.
fn has_heads(g: &Graph) -> bool
    ensures some { result ≡ true → NoHeads g.now.points → ⊥ }
    ensures none { result ≡ false → NoHeads g.now.points }
{
    for p in 0..g.points() {
        if g.is_head(p) {
            return true;
        }
    }
    false
}

/// The alternatives of a graph without loops: one, or none.
fn of_need(alloc: Global, g: &Graph) -> Result<Items<Annotated>, NoMemory>
    requires { NoHeads g.now.points }
    ensures { IfOk result (AreAlternatives g.now) }
{
    let mut all = Items::new(alloc);
    match choice_of_need(alloc, g)? {
        Some(a) => {
            push(&mut all, a)?;
            Ok(all)
        }
        None => Ok(all),
    }
}
