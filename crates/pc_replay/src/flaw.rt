ghost use Rattle.std.specs.Prelude.{◌≡◌};
ghost use Rattle.pc_replay.specs.Flaws.{flaw_of_total};
ghost use Rattle.pc_replay.specs.Rule.{told};

use crate::ruling::Ruling;
use pc_rows::Total;

/// What is wrong with the proof of a row that an edge owes.
#[derive(Clone, Copy, Debug, PartialEq, Eq)]
pub enum Flaw {
    /// A number is not in range.
    Past,
    /// A multiplier is below 0.
    Negative,
    /// It names a premise that there is not.
    Index,
    /// This variable is left in the total, and none before it.
    Left(u32),
    /// The total is 0 or more.
    NotBelow,
}

impl Flaw {
    /// What is wrong with the total of a proof.
    pub fn of_total(total: &Total) -> Option<Flaw>
        ensures { result ≡ flaw_of_total total.now }
    {
        if let Some(v) = total.first_variable() {
            return Some(Flaw::Left(v));
        }
        if total.constant().is_at_least_zero() {
            return Some(Flaw::NotBelow);
        }
        None
    }

    /// The ruling on a certificate with this flaw.
    pub fn at(self, alternative: u32, edge: u32, row: u32) -> Ruling
        ensures { result ≡ told alternative edge row self }
    {
        match self {
            Flaw::Past => Ruling::Past {
                alternative,
                edge,
                row,
            },
            Flaw::Negative => Ruling::Negative {
                alternative,
                edge,
                row,
            },
            Flaw::Index => Ruling::Index {
                alternative,
                edge,
                row,
            },
            Flaw::Left(variable) => Ruling::Left {
                alternative,
                edge,
                row,
                variable,
            },
            Flaw::NotBelow => Ruling::NotBelow {
                alternative,
                edge,
                row,
            },
        }
    }
}
