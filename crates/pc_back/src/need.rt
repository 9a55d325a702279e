ghost use Rattle.std.specs.Prelude.{◌≡◌, ◌↔◌, IfOk};
ghost use Rattle.pc_rows.specs.Linear.{State, MeetsAll};
ghost use Rattle.pc_lower.specs.Narrowing.{nothing};
ghost use Rattle.pc_back.specs.Needs.{HasNeed, list_of};

use pc_domain::NoMemory;
use pc_rows::Rows;
use std::alloc::Global;
use std::marker::Model;

/// Rows that a state has to meet, or nothing, which has no state.
#[derive(Drop)]
pub struct Need {
    pub(crate) rows: Option<Rows>,
}

impl Model for Need {
    ghost use Rattle.pc_back.specs.Needs.{Rowed};

    ghost Value = { Rowed };

    ghost view = { λ n. n.rows };
}

impl Need {
    /// Its rows, and for nothing the one row -1. A state is in the value exactly where it meets them.
    pub fn list(&self, alloc: Global) -> Result<Rows, NoMemory>
        ensures rows { IfOk result (λ rows. rows ≡ list_of self.now) }
        ensures states { IfOk result (λ rows. (s : State) → HasNeed self.now s ↔ MeetsAll s rows) }
    {
        match &self.rows {
            Some(rows) => copied(rows),
            None => never(alloc),
        }
    }
}

/// The same rows.
fn copied(rows: &Rows) -> Result<Rows, NoMemory>
    ensures { IfOk result (λ new. new ≡ rows.now) }
{
    match rows.copy() {
        Ok(rows) => Ok(rows),
        Err(_) => Err(NoMemory),
    }
}

/// The row -1 alone.
pub(crate) fn never(alloc: Global) -> Result<Rows, NoMemory>
    ensures { IfOk result (λ rows. rows ≡ nothing) }
{
    match pc_lower::nothing(alloc) {
        Ok(rows) => Ok(rows),
        Err(_) => Err(NoMemory),
    }
}
