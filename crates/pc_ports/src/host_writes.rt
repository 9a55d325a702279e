ghost use Rattle.std.specs.Prelude.{◌≡◌, ◌<◌, ◌≤◌, length, None, IfSome};

use crate::lists::one_more_than;
use crate::writes::{Sink, WriteFault};
use std::io::Write;
use std::marker::Model;

/// A writer of the system, as its standard output, of whose content it tells nothing.
///
/// Contracts see its count of faults.
#[derive(Drop)]
pub struct HostSink<W: Write> {
    out: W,
    faults: u64,
}

impl<W: Write> Model for HostSink<W> {
    ghost use Rattle.std.specs.Prelude.{ℕ};

    ghost Value = { ℕ };

    ghost view = { λ s. s.faults };
}

impl<W: Write> HostSink<W> {
    /// A sink over this writer, with no faults so far.
    pub fn new(out: W) -> HostSink<W>
        ensures { result ≡ 0 }
    {
        HostSink { out, faults: 0 }
    }
}

impl<W: Write> Sink for HostSink<W> {
    ghost written = { λ s. None };

    ghost faults = { λ s. s };

    fn put(&mut self, b: &[u8]) -> Result<usize, WriteFault> {
        match write_front(&mut self.out, b) {
            Some(n) => Ok(n),
            None => {
                self.faults = one_more_than(self.faults);
                Err(WriteFault)
            }
        }
    }
}

/// Writes the first bytes and flushes, and answers how many they are: nothing where either fails or
/// none was written.
fn write_front<W: Write>(out: &mut W, b: &[u8]) -> Option<usize>
    ensures { IfSome result (λ n. (0 < n) × (n ≤ length b.now)) }
{
    let n = out.write(b).ok()?;
    out.flush().ok()?;
    if n == 0 { None } else { Some(n) }
}
