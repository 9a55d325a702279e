ghost use Rattle.std.specs.Prelude.{◌≡◌};

use pc_rows::{NoMemory, Past, RowsFault};

/// Why there is no candidate.
#[derive(Clone, Copy, Debug, PartialEq, Eq)]
pub enum CandidateFault {
    /// A number of a row that is carried back is not in range.
    Past,
    /// A point would need more rows than a list holds.
    Full,
    /// There is no memory.
    NoMemory,
}

impl From<Past> for CandidateFault {
    ghost use Rattle.pc_lower.specs.declared.fault.CandidateFault.TheVariants as fault;

    ghost from_gives = { λ _ e. e ≡ fault.Past };

    fn from(_: Past) -> CandidateFault {
        CandidateFault::Past
    }
}

impl From<NoMemory> for CandidateFault {
    ghost use Rattle.pc_lower.specs.declared.fault.CandidateFault.TheVariants as fault;

    ghost from_gives = { λ _ e. e ≡ fault.NoMemory };

    fn from(_: NoMemory) -> CandidateFault {
        CandidateFault::NoMemory
    }
}

impl From<RowsFault> for CandidateFault {
    ghost use Rattle.pc_lower.specs.Faults.{told};

    ghost from_gives = { λ fault e. e ≡ told fault };

    fn from(fault: RowsFault) -> CandidateFault {
        match fault {
            RowsFault::Full => CandidateFault::Full,
            RowsFault::NoMemory => CandidateFault::NoMemory,
        }
    }
}
