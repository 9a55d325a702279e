ghost use Rattle.std.specs.Prelude.{◌≡◌, ℕ, List, [], ◌<◌, ◌≤◌, length, take, Option, IfOk, OnOk, OnErr};
ghost use Rattle.pc_ports.specs.Outside.{Appended, FrontAppended, Rose};

/// The writing failed. The sink's count of faults rose in this call.
#[derive(Clone, Copy, Debug, PartialEq, Eq)]
pub struct WriteFault;

/// Where answers are written to.
///
/// A sink tells the bytes that were written, or tells nothing of them, and counts its faults.
pub trait Sink {
    ghost written: { Self → Option (List ℕ) };

    ghost faults: { Self → ℕ };

    /// Appends the first bytes of `b`, one at least, and answers how many.
    ///
    /// After a fault nothing of `b` was appended.
    fn put(&mut self, b: &[u8]) -> Result<usize, WriteFault>
        requires { 0 < length b.now }
        ensures some { IfOk result (λ n. (0 < n) × (n ≤ length b.now)) }
        ensures front { IfOk result (λ n. Appended (written self.old) (written self.new) (take n b.now)) }
        ensures nothing { OnErr result (written self.new ≡ written self.old) }
        ensures cause { OnErr result (Rose (faults self.old) (faults self.new)) }
        ensures counted { faults self.old ≤ faults self.new };
}

/// Appends all of `b`, in as many puts as it takes.
///
/// The fault is that of the first put that fails: then the bytes before that put, fewer than all,
/// were appended. Without bytes there is no put.
pub fn put_all<K: Sink>(out: &mut K, b: &[u8]) -> Result<(), WriteFault>
    ensures all { OnOk result (Appended (K.written out.old) (K.written out.new) b.now) }
    ensures front { OnErr result (FrontAppended (K.written out.old) (K.written out.new) b.now) }
    ensures cause { OnErr result (Rose (K.faults out.old) (K.faults out.new)) }
    ensures counted { K.faults out.old ≤ K.faults out.new }
    ensures untouched { b.now ≡ [] → out.new ≡ out.old }
{
    let mut done = 0;
    while done < b.len() {
        done += out.put(&b[done..])?;
    }
    Ok(())
}
