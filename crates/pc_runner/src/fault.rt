use std::alloc::AllocError;
use thiserror::Error;

/// Why a text is no script. Lines are counted from 1; the first line at fault is told, and of its
/// faults the first in this order.
#[derive(Clone, Copy, Debug, Drop, Error)]
pub enum ScriptFault {
    /// The line has not the words that it is to have, or no line feed, or is missing.
    #[error("line {0} has not the form of its place in a script")]
    Form(u32),
    /// A numeral of the line is not in range, or a choice is not made 1 to 1,000,000 times.
    #[error("a number in line {0} is not in range")]
    Number(u32),
    /// The first line has another number of values than there are parameters.
    #[error("{given} values for {wanted} parameters")]
    Values { given: u32, wanted: u32 },
    /// With this line there are more than 1,000,000 choices.
    #[error("line {0} makes too many choices")]
    Many(u32),
    #[error("there is no memory for the script")]
    NoMemory,
}

impl From<AllocError> for ScriptFault {
    ghost use Rattle.std.specs.Prelude.{◌≡◌};
    ghost use Rattle.pc_runner.specs.declared.fault.ScriptFault.TheVariants.{NoMemory};

    ghost from_gives = { λ _ e. e ≡ NoMemory };

    fn from(_: AllocError) -> ScriptFault {
        ScriptFault::NoMemory
    }
}
