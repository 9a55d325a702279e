//! What the words `replay` are answered: rulings on certificates.

ghost use Rattle.std.specs.Prelude.{◌≡◌, ◌≤◌, ℕ, List, IfOk};
ghost use Rattle.pc_graph.specs.Lowering.{graph};
ghost use Rattle.pc_app.specs.Kinds.{certificate_kind};
ghost use Rattle.pc_app.specs.Subjects.{of_program};
ghost use Rattle.pc_app.specs.Replay.{ReplaySays, replay};
ghost use Rattle.pc_app.specs.Reading.{TaskIs, RestIs};

use crate::answer::{Answer, Stop};
use crate::files::{certificate_in, source_in};
use crate::ruling::answer_of_ruling;
use pc_certificate::Certificate;
use pc_flow::Graph;
use pc_graph::lower;
use pc_ports::Store;
use pc_program::Program;
use pc_replay::accept;
use pc_text::NoMemory;
use std::alloc::Global;

/// The answer to `replay`.
pub(crate) fn answer_to_replay<S: Store>(
    alloc: Global,
    source: &str,
    certificate: &str,
    store: &mut S,
) -> Result<Answer, Stop>
    ensures answered { TaskIs (S.holding store.old) (S.faults store.old) (S.faults store.new) (replay source.now certificate.now) result }
    ensures kept { (name : List ℕ) → S.holding store.new name ≡ S.holding store.old name }
{
    let program = source_in(alloc, source, store)?;
    let graph = lower(alloc, &program)?;
    replay_program(alloc, &program, &graph, certificate, store)
}

/// The answer to `replay` on a program with its graph, which is there before the certificate is
/// fetched.
fn replay_program<S: Store>(
    alloc: Global,
    program: &Program,
    g: &Graph,
    certificate: &str,
    store: &mut S,
) -> Result<Answer, Stop>
    requires { g.now ≡ graph program.now }
    ensures answered { RestIs certificate_kind (ReplaySays (of_program program.now)) (S.holding store.old certificate.now) (S.faults store.old) (S.faults store.new) result }
    ensures counted { S.faults store.old ≤ S.faults store.new }
    ensures kept { (name : List ℕ) → S.holding store.new name ≡ S.holding store.old name }
{
    let certificate = certificate_in(alloc, certificate, store)?;
    Ok(ruled(alloc, program, g, &certificate)?)
}

/// The answer to a certificate for a program with its graph.
fn ruled(
    alloc: Global,
    program: &Program,
    g: &Graph,
    certificate: &Certificate,
) -> Result<Answer, NoMemory>
    requires { g.now ≡ graph program.now }
    ensures { IfOk result (λ a. ReplaySays (of_program program.now) certificate.now a.status a.text) }
{
    let ruling = accept(g, certificate);
    answer_of_ruling(alloc, certificate, &program.names, ruling)
}
