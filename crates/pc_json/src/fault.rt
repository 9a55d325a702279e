//! Why bytes are no certificate.

use pc_rows::NoMemory;
use std::alloc::AllocError;
use thiserror::Error;

/// Why bytes are no certificate in JSON.
#[derive(Clone, Copy, Debug, Drop, PartialEq, Eq, Error)]
pub enum JsonFault {
    /// They are not one JSON value with nothing but white space round it.
    #[error("the bytes are no JSON value")]
    Json,
    /// They are one JSON value, which is that of no certificate.
    #[error("the JSON value is that of no certificate")]
    Value,
    /// There is no memory for the value or for the certificate.
    #[error("there is no memory for the certificate")]
    NoMemory,
}

impl From<AllocError> for JsonFault {
    ghost use Rattle.std.specs.Prelude.{◌≡◌};
    ghost use Rattle.pc_json.specs.declared.fault.JsonFault.TheVariants.{NoMemory};

    ghost from_gives = { λ _ e. e ≡ NoMemory };

    fn from(_: AllocError) -> JsonFault {
        JsonFault::NoMemory
    }
}

impl From<NoMemory> for JsonFault {
    ghost use Rattle.std.specs.Prelude.{◌≡◌};
    ghost use Rattle.pc_json.specs.declared.fault.JsonFault.TheVariants.{NoMemory};

    ghost from_gives = { λ _ e. e ≡ NoMemory };

    fn from(_: NoMemory) -> JsonFault {
        JsonFault::NoMemory
    }
}
