//! The lines that tell why a text is no script, or no certificate.

ghost use Rattle.std.specs.Prelude.{◌≡◌, ◌≢◌, ◌++◌, OnOk, IfOk};
ghost use Rattle.pc_app.specs.Texts.{line_text, script_fault_text, malformed_script, certificate_fault_text, malformed_certificate};

use crate::refusal::push_also;
use pc_cert::CertFault;
use pc_runner::ScriptFault;
use pc_text::{NoMemory, Text};
use std::alloc::Global;

/// The line of a script with this fault.
pub(crate) fn malformed_script(alloc: Global, fault: ScriptFault) -> Result<Text, NoMemory>
    requires { fault ≢ ScriptFault.NoMemory }
    ensures { IfOk result (λ t. t ≡ malformed_script fault) }
{
    let mut text = Text::new(alloc);
    text.push_all(b"script: ")?;
    push_script_fault(&mut text, fault)?;
    text.push(b'\n')?;
    Ok(text)
}

/// Adds what is told of the fault of a script.
fn push_script_fault(text: &mut Text, fault: ScriptFault) -> Result<(), NoMemory>
    requires { fault ≢ ScriptFault.NoMemory }
    ensures { OnOk result (text.new ≡ text.old ++ script_fault_text fault) }
{
    match fault {
        ScriptFault::Form(line) => push_line(text, b"form ", line),
        ScriptFault::Number(line) => push_line(text, b"number ", line),
        ScriptFault::Many(line) => push_line(text, b"many ", line),
        ScriptFault::Values { given, wanted } => push_values(text, given, wanted),
        ScriptFault::NoMemory => unreachable!(),
    }
}

/// The line of a certificate with this fault.
pub(crate) fn malformed_certificate(alloc: Global, fault: CertFault) -> Result<Text, NoMemory>
    requires { fault ≢ CertFault.NoMemory }
    ensures { IfOk result (λ t. t ≡ malformed_certificate fault) }
{
    let mut text = Text::new(alloc);
    text.push_all(b"certificate: ")?;
    push_certificate_fault(&mut text, fault)?;
    text.push(b'\n')?;
    Ok(text)
}

/// Adds what is told of the fault of a certificate.
fn push_certificate_fault(text: &mut Text, fault: CertFault) -> Result<(), NoMemory>
    requires { fault ≢ CertFault.NoMemory }
    ensures { OnOk result (text.new ≡ text.old ++ certificate_fault_text fault) }
{
    match fault {
        CertFault::Form(line) => push_line(text, b"form ", line),
        CertFault::Number(line) => push_line(text, b"number ", line),
        CertFault::Trailing(line) => push_line(text, b"trailing ", line),
        CertFault::NoMemory => unreachable!(),
    }
}

/// Adds a code and a line by its number.
fn push_line(text: &mut Text, code: &[u8], line: u32) -> Result<(), NoMemory>
    ensures { OnOk result (text.new ≡ text.old ++ (code.now ++ line_text line)) }
{
    text.push_all(code)?;
    text.push_all(b"line ")?;
    text.push_number(i128::from(line))
}

/// Adds how many values there are and how many are wanted.
fn push_values(text: &mut Text, given: u32, wanted: u32) -> Result<(), NoMemory>
    ensures { OnOk result (text.new ≡ text.old ++ script_fault_text (ScriptFault.Values given wanted)) }
{
    text.push_all(b"values")?;
    push_also(text, i128::from(given))?;
    text.push_all(b" wanted")?;
    push_also(text, i128::from(wanted))
}
