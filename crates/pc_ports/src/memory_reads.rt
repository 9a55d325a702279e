ghost use Rattle.std.specs.Prelude.{◌≡◌, ℕ, List, ◌<◌, ◌≤◌, ◌+◌, take, false, IfOk, IfErr, OnOk};
ghost use Rattle.pc_ports.specs.Memory.{after_fetch, held_under, MemoryFetchCause, is_to_fail};
ghost use Rattle.pc_ports.specs.Outside.{FetchCause, TakenFrom};

use crate::lists::{Calls, Files, NoMemory, one_more_than};
use crate::reads::{FetchFault, Store};
use std::alloc::Global;
use std::marker::Model;

/// A store in memory, which tells what it holds.
///
/// It counts its calls from 1. A call whose number is listed fails, and no other does.
#[derive(Drop)]
pub struct MemoryStore {
    files: Files,
    fails: Calls,
    calls: u64,
    faults: u64,
}

impl Model for MemoryStore {
    ghost use Rattle.pc_ports.specs.Memory.{StoreState};

    ghost Value = { StoreState };

    ghost view = { λ s. record { files = s.files; fails = s.fails; calls = s.calls; faults = s.faults } };
}

impl MemoryStore {
    /// A store of these files, of which the calls of these numbers fail.
    pub fn new(files: Files, fails: Calls) -> MemoryStore
        ensures { result ≡ record { files = files; fails = fails; calls = 0; faults = 0 } }
    {
        MemoryStore {
            files,
            fails,
            calls: 0,
            faults: 0,
        }
    }
}

impl Store for MemoryStore {
    ghost holding = { λ s name. held_under s.files name };

    ghost faults = { λ s. s.faults };

    fn fetch(&mut self, alloc: Global, name: &str, limit: usize) -> Result<Vec<u8>, FetchFault>
        requires { limit < usize.MAX }
        ensures after { self.new ≡ after_fetch self.old }
        ensures unlisted { OnOk result (is_to_fail self.old.fails self.old.calls ≡ false) }
        ensures exactly { IfErr result (λ f. MemoryFetchCause self.old name.now f) }

        // What every store promises.
        ensures kept { (n : List ℕ) → held_under self.new.files n ≡ held_under self.old.files n }
        ensures counted { self.old.faults ≤ self.new.faults }
        ensures taken { IfOk result (λ v. TakenFrom (held_under self.old.files name.now) limit v.items) }
        ensures cause { IfErr result (λ f. FetchCause (held_under self.old.files name.now) self.old.faults self.new.faults f) }
    {
        self.calls = one_more_than(self.calls);
        if self.fails.contains(self.calls) {
            self.faults = one_more_than(self.faults);
            return Err(FetchFault::Failed);
        }
        let Some(bytes) = self.files.held(name) else {
            return Err(FetchFault::Missing);
        };
        let Ok(copy) = front(alloc, bytes, limit + 1) else {
            return Err(FetchFault::NoMemory);
        };
        Ok(copy)
    }
}

/// A copy of the first `most` bytes, or of all where there are fewer.
fn front(alloc: Global, bytes: &[u8], most: usize) -> Result<Vec<u8>, NoMemory>
    ensures { IfOk result (λ v. v.items ≡ take most bytes.now) }
{
    match Vec::from_slice(alloc, &bytes[..most.min(bytes.len())]) {
        Ok(copy) => Ok(copy),
        Err(_) => Err(NoMemory),
    }
}
