ghost use Rattle.std.specs.Prelude.{◌≡◌, ℕ, List, ◌<◌, ◌≤◌, IfOk, IfErr};
ghost use Rattle.pc_ports.specs.Outside.{Holding, TakenFrom, FetchCause};

use std::alloc::Global;

/// Why a store did not give the bytes of a name.
#[derive(Clone, Copy, Debug, PartialEq, Eq)]
pub enum FetchFault {
    /// The reading failed. The store's count of faults rose in this call.
    Failed,
    /// The store tells what it holds, and holds nothing under this name. Its count did not change.
    Missing,
    /// There was no memory for the bytes.
    NoMemory,
}

/// Where named sources are read from.
///
/// A store tells what it holds under each name, or tells nothing of it, and counts its faults.
pub trait Store {
    ghost holding: { Self → List ℕ → Holding };

    ghost faults: { Self → ℕ };

    /// The first `limit + 1` bytes held under the name, or all where there are fewer.
    ///
    /// So what is longer than `limit` bytes is seen to be too long, and no more of it is read.
    fn fetch(&mut self, alloc: Global, name: &str, limit: usize) -> Result<Vec<u8>, FetchFault>
        requires { limit < usize.MAX }

        // What is held stays, and the count never falls.
        ensures kept { (n : List ℕ) → holding self.new n ≡ holding self.old n }
        ensures counted { faults self.old ≤ faults self.new }
        ensures taken { IfOk result (λ v. TakenFrom (holding self.old name.now) limit v.items) }
        ensures cause { IfErr result (λ f. FetchCause (holding self.old name.now) (faults self.old) (faults self.new) f) };
}
