ghost use Rattle.std.specs.Prelude.{◌≡◌};
ghost use Rattle.pc_lines.specs.LineReaders as spec;

use pc_rows::NoMemory;
use std::alloc::AllocError;
use thiserror::Error;

/// Why a text is no certificate. Lines are counted from 1; the first line at fault is told, and of
/// its faults the first in this order.
#[derive(Clone, Copy, Debug, Drop, Error)]
pub enum CertFault {
    /// The line has not the words and numerals that are wanted, or no line feed, or is missing.
    #[error("line {0} has not the form of its place in a certificate")]
    Form(u32),
    /// A number of the line breaks a rule: it is not in range or over its limit, a count is not the
    /// running number, or the indices of a proof do not rise.
    #[error("a number in line {0} breaks a rule of certificates")]
    Number(u32),
    /// The line is the first behind the end of the certificate.
    #[error("line {0} stands behind the end of the certificate")]
    Trailing(u32),
    #[error("there is no memory for the certificate")]
    NoMemory,
}

impl From<AllocError> for CertFault {
    ghost use Rattle.std.specs.Prelude.{◌≡◌};
    ghost use Rattle.pc_lines.specs.declared.fault.CertFault.TheVariants.{NoMemory};

    ghost from_gives = { λ _ e. e ≡ NoMemory };

    fn from(_: AllocError) -> CertFault {
        CertFault::NoMemory
    }
}

impl From<NoMemory> for CertFault {
    ghost use Rattle.std.specs.Prelude.{◌≡◌};
    ghost use Rattle.pc_lines.specs.declared.fault.CertFault.TheVariants.{NoMemory};

    ghost from_gives = { λ _ e. e ≡ NoMemory };

    fn from(_: NoMemory) -> CertFault {
        CertFault::NoMemory
    }
}

/// The fault of a line with a number that breaks a rule, by whether the words behind it have their
/// form.
pub(crate) fn broken(has_form: bool, number: u32) -> CertFault
    ensures { result ≡ spec.broken has_form number }
{
    if has_form {
        CertFault::Number(number)
    } else {
        CertFault::Form(number)
    }
}
