//! Needs as a domain.

ghost use Rattle.std.specs.Prelude.{◌≡◌, ◌≤◌, None, IfOk, MatchOption};
ghost use Rattle.pc_rows.specs.Linear.{State, MeetsAll};
ghost use Rattle.pc_back.specs.declared.limits.TheConstants.{LAST_ROUND};
ghost use Rattle.pc_back.specs.Needs.{HasNeed, BeforeIs, BothIs};
ghost use Rattle.pc_back.specs.Views.{view_of, need_says};

use crate::carry::{before, both};
use crate::entry::{entry_rows, listed};
use crate::limits::LAST_ROUND;
use crate::narrowing::narrowed;
use crate::need::Need;
use pc_domain::{Backward, NoMemory};
use pc_flow::Edge;
use pc_rows::{Row, Rows};
use sqlite_items::Items;
use std::alloc::Global;

impl Need {
    /// What is needed before an edge so that this is met behind it.
    fn before_edge(&self, alloc: Global, edge: &Edge) -> Result<Need, NoMemory>
        ensures { IfOk result (BeforeIs edge.now.what self.now) }
    {
        let rows = match &self.rows {
            Some(rows) => before(alloc, edge, rows)?,
            None => None,
        };
        Ok(Need { rows })
    }

    /// What both values ask for.
    fn with(&self, other: &Need) -> Result<Need, NoMemory>
        ensures { IfOk result (BothIs self.now other.now) }
    {
        match (&self.rows, &other.rows) {
            (Some(a), Some(b)) => Ok(Need { rows: both(a, b)? }),
            _ => Ok(Need { rows: None }),
        }
    }
}

impl Backward for Need {
    ghost has = { HasNeed };

    ghost view = { view_of };

    ghost says = { need_says };

    ghost LAST_ROUND = { LAST_ROUND };

    const LAST_ROUND: u32 = LAST_ROUND;

    fn everything(alloc: Global, _variables: u32) -> Result<Self, NoMemory> {
        Ok(Need {
            rows: Some(Rows::new(alloc)),
        })
    }

    fn nothing(_alloc: Global, _variables: u32) -> Result<Self, NoMemory> {
        Ok(Need { rows: None })
    }

    fn before(&self, alloc: Global, edge: &Edge) -> Result<Self, NoMemory> {
        self.before_edge(alloc, edge)
    }

    fn both(&self, _alloc: Global, other: &Self) -> Result<Self, NoMemory> {
        self.with(other)
    }

    fn narrow(&self, alloc: Global, newer: &Self, round: u32) -> Result<Option<Self>, NoMemory> {
        match &self.rows {
            Some(old) => narrowed(alloc, old, newer, round),
            None => Ok(None),
        }
    }

    fn entry_rows(&self, alloc: Global, params: u32) -> Result<Items<Row>, NoMemory> {
        listed(alloc, &entry_rows(alloc, self, params)?)
    }
}
