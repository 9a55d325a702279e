//! What the words `infer` are answered: conditions, and their certificates.

ghost use Rattle.std.specs.Prelude.{IfOk};
ghost use Rattle.pc_app.specs.Subjects.{of_program};
ghost use Rattle.pc_app.specs.Inferred.{IsFound};
ghost use Rattle.pc_app.specs.Infer.{InferPrints, CertifyPrints};

use crate::printing::Prints;
use pc_cert::{show_certificate, show_condition};
use pc_certificate::Certificate;
use pc_certify::infer;
use pc_flow::Graph;
use pc_graph::lower;
use pc_program::Program;
use pc_text::{NoMemory, Text};
use std::alloc::Global;

/// `infer F`.
#[derive(Drop)]
pub(crate) struct Condition;

impl Prints for Condition {
    ghost prints = { λ _ p. InferPrints (of_program p) };

    fn text(&self, alloc: Global, program: &Program) -> Result<Text, NoMemory> {
        condition_of(alloc, program)
    }
}

/// `infer F --certificate`.
#[derive(Drop)]
pub(crate) struct CertificateOf;

impl Prints for CertificateOf {
    ghost prints = { λ _ p. CertifyPrints (of_program p) };

    fn text(&self, alloc: Global, program: &Program) -> Result<Text, NoMemory> {
        certificate_text(alloc, program)
    }
}

/// The condition that is inferred for a program.
fn condition_of(alloc: Global, program: &Program) -> Result<Text, NoMemory>
    ensures { IfOk result (InferPrints (of_program program.now)) }
{
    let graph = lower(alloc, program)?;
    let certificate = certificate_of(alloc, &graph)?;
    show_condition(alloc, &certificate, &program.names)
}

/// The text of the certificate that is inferred for a program.
fn certificate_text(alloc: Global, program: &Program) -> Result<Text, NoMemory>
    ensures { IfOk result (CertifyPrints (of_program program.now)) }
{
    let graph = lower(alloc, program)?;
    let certificate = certificate_of(alloc, &graph)?;
    show_certificate(alloc, &certificate)
}

/// The certificate that is inferred for a graph.
pub(crate) fn certificate_of(alloc: Global, g: &Graph) -> Result<Certificate, NoMemory>
    ensures { IfOk result (IsFound g.now) }
{
    match infer(alloc, g) {
        Ok(certificate) => Ok(certificate),
        Err(pc_rows::NoMemory) => Err(NoMemory),
    }
}
