//! The files that a command names: their bytes, and what these are.

ghost use Rattle.std.specs.Prelude.{◌≡◌, ◌≤◌, ◌<◌, ℕ, List, IfOk, IfErr};
ghost use Rattle.pc_app.specs.Files.{HasBytes, IsTooLong};
ghost use Rattle.pc_app.specs.Kinds.{source_kind, certificate_kind};
ghost use Rattle.pc_app.specs.Causes.{IsLost};
ghost use Rattle.pc_app.specs.Reading.{Stops, FileIs, ScriptIs};

use crate::answer::{Answer, Stop, one_line};
use crate::limits::{CERTIFICATE_BYTES, SCRIPT_BYTES, SOURCE_BYTES};
use crate::malformed::{malformed_certificate, malformed_script};
use crate::refusal::refusal_of;
use crate::status::{MALFORMED, REFUSED, TOO_LONG};
use pc_cert::{CertFault, read_certificate};
use pc_certificate::Certificate;
use pc_ports::{FetchFault, Store};
use pc_program::Program;
use pc_runner::{Script, ScriptFault, read_script};
use pc_syntax::{SourceFault, read};
use std::alloc::Global;

/// The bytes of a file. `long` is the line that is answered where they are more than the limit.
fn bytes_in<S: Store>(
    alloc: Global,
    name: &str,
    limit: usize,
    long: &[u8],
    store: &mut S,
) -> Result<Vec<u8>, Stop>
    requires { limit < usize.MAX }
    ensures bytes { IfOk result (λ bytes. HasBytes limit (S.holding store.old name.now) bytes.items) }
    ensures stops { IfErr result (λ e. Stops (IsTooLong (λ _. limit) long.now (S.holding store.old name.now)) (IsLost (S.holding store.old name.now) (S.faults store.old) (S.faults store.new)) e) }
    ensures counted { S.faults store.old ≤ S.faults store.new }
    ensures kept { (n : List ℕ) → S.holding store.new n ≡ S.holding store.old n }
{
    match store.fetch(alloc, name, limit) {
        Ok(bytes) if bytes.len() > limit => Err(Stop::Refused(one_line(alloc, TOO_LONG, long)?)),
        Ok(bytes) => Ok(bytes),
        Err(FetchFault::NoMemory) => Err(Stop::Memory),
        Err(FetchFault::Failed | FetchFault::Missing) => Err(Stop::Store),
    }
}

/// The program that a file spells.
pub(crate) fn source_in<S: Store>(alloc: Global, name: &str, store: &mut S) -> Result<Program, Stop>
    ensures answered { FileIs source_kind (S.holding store.old name.now) (S.faults store.old) (S.faults store.new) result }
    ensures counted { S.faults store.old ≤ S.faults store.new }
    ensures kept { (n : List ℕ) → S.holding store.new n ≡ S.holding store.old n }
{
    let bytes = bytes_in(alloc, name, SOURCE_BYTES, b"too long: source\n", store)?;
    match read(alloc, bytes.as_slice()) {
        Ok(program) => Ok(program),
        Err(SourceFault::NoMemory) => Err(Stop::Memory),
        Err(fault) => Err(Stop::Refused(Answer {
            status: REFUSED,
            text: refusal_of(alloc, fault)?,
        })),
    }
}

/// The script that a file is, for a program with so many parameters.
pub(crate) fn script_in<S: Store>(
    alloc: Global,
    name: &str,
    params: u32,
    store: &mut S,
) -> Result<Script, Stop>
    ensures answered { ScriptIs params (S.holding store.old name.now) (S.faults store.old) (S.faults store.new) result }
    ensures counted { S.faults store.old ≤ S.faults store.new }
    ensures kept { (n : List ℕ) → S.holding store.new n ≡ S.holding store.old n }
{
    let bytes = bytes_in(alloc, name, SCRIPT_BYTES, b"too long: script\n", store)?;
    match read_script(alloc, bytes.as_slice(), params) {
        Ok(script) => Ok(script),
        Err(ScriptFault::NoMemory) => Err(Stop::Memory),
        Err(fault) => Err(Stop::Refused(Answer {
            status: MALFORMED,
            text: malformed_script(alloc, fault)?,
        })),
    }
}

/// The certificate whose text a file is.
pub(crate) fn certificate_in<S: Store>(
    alloc: Global,
    name: &str,
    store: &mut S,
) -> Result<Certificate, Stop>
    ensures answered { FileIs certificate_kind (S.holding store.old name.now) (S.faults store.old) (S.faults store.new) result }
    ensures counted { S.faults store.old ≤ S.faults store.new }
    ensures kept { (n : List ℕ) → S.holding store.new n ≡ S.holding store.old n }
{
    let bytes = bytes_in(
        alloc,
        name,
        CERTIFICATE_BYTES,
        b"too long: certificate\n",
        store,
    )?;
    match read_certificate(alloc, bytes.as_slice()) {
        Ok(certificate) => Ok(certificate),
        Err(CertFault::NoMemory) => Err(Stop::Memory),
        Err(fault) => Err(Stop::Refused(Answer {
            status: MALFORMED,
            text: malformed_certificate(alloc, fault)?,
        })),
    }
}
