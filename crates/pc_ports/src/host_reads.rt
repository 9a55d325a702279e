ghost use Rattle.std.specs.Prelude.{◌≡◌, ◌≢◌, ℕ, ◌<◌, ◌≤◌, ◌+◌, length, IfOk, IfErr};
ghost use Rattle.pc_ports.specs.Outside.{Untold};
ghost use Rattle.pc_ports.specs.declared.reads.FetchFault.TheVariants.{Missing};

use crate::lists::one_more_than;
use crate::reads::{FetchFault, Store};
use std::alloc::Global;
use std::io::Read;
use std::marker::Model;
use std::{fs, rt};

/// How many bytes are asked for at once.
const PIECE: usize = 4096;

/// The files of the system, of whose content it tells nothing.
///
/// Contracts see its count of faults.
#[derive(Drop)]
pub struct HostStore<'a, R: rt::Files> {
    host: &'a R,
    faults: u64,
}

impl<'a, R: rt::Files> Model for HostStore<'a, R> {
    ghost use Rattle.std.specs.Prelude.{ℕ};

    ghost Value = { ℕ };

    ghost view = { λ s. s.faults };
}

impl<'a, R: rt::Files> HostStore<'a, R> {
    /// The files of this system, with no faults so far.
    pub fn new(host: &'a R) -> HostStore<'a, R>
        ensures { result ≡ 0 }
    {
        HostStore { host, faults: 0 }
    }
}

impl<R: rt::Files> Store for HostStore<'_, R> {
    ghost holding = { λ s name. Untold };

    ghost faults = { λ s. s };

    fn fetch(&mut self, alloc: Global, name: &str, limit: usize) -> Result<Vec<u8>, FetchFault> {
        let bytes = match fs::open(self.host, name) {
            Ok(mut file) => read_front(alloc, &mut file, limit + 1),
            Err(_) => Err(FetchFault::Failed),
        };
        if let Err(FetchFault::Failed) = bytes {
            self.faults = one_more_than(self.faults);
        }
        bytes
    }
}

/// Reads to the end, or until there are `most` bytes.
fn read_front<F: Read>(alloc: Global, file: &mut F, most: usize) -> Result<Vec<u8>, FetchFault>
    ensures few { IfOk result (λ v. length v.items ≤ most) }
    ensures known { IfErr result (λ f. f ≢ Missing) }
{
    let mut bytes = Vec::new(alloc);
    let mut piece = [0; PIECE];
    while bytes.len() < most {
        let wanted = PIECE.min(most - bytes.len());
        let Ok(n) = file.read(&mut piece[..wanted]) else {
            return Err(FetchFault::Failed);
        };
        if n == 0 {
            break;
        }
        if bytes.extend_from_slice(&piece[..n]).is_err() {
            return Err(FetchFault::NoMemory);
        }
    }
    Ok(bytes)
}
