ghost use Rattle.std.specs.Prelude.{◌≡◌, ◌<◌, ◌≤◌, [], length, take, Some, false, IfOk, OkIff, OnErr};
ghost use Rattle.pc_ports.specs.Memory.{after_put, is_put_fault, put_len};
ghost use Rattle.pc_ports.specs.Outside.{Appended, Rose};

use crate::lists::{Calls, NoMemory, one_more_than};
use crate::writes::{Sink, WriteFault};
use std::alloc::Global;
use std::marker::Model;

/// A sink in memory, which tells what was written.
///
/// It counts its calls from 1. A call whose number is listed fails, and so does one that finds no
/// room left; no other does. Its memory is taken when it is made.
#[derive(Drop)]
pub struct MemorySink {
    room: usize,
    most: usize,
    fails: Calls,
    calls: u64,
    faults: u64,
    bytes: Vec<u8>,
}

impl Model for MemorySink {
    ghost use Rattle.std.specs.Prelude.{◌<◌, ◌≤◌, length, vec_capacity};
    ghost use Rattle.pc_ports.specs.Memory.{SinkState};

    ghost Value = { SinkState };

    ghost view = { λ s. record { room = s.room; most = s.most; fails = s.fails; calls = s.calls; faults = s.faults; written = s.bytes.items } };

    ghost invariant = { λ s. (0 < s.most) × (length s.bytes.items ≤ s.room) × (s.room ≤ vec_capacity s.bytes) };
}

impl MemorySink {
    /// A sink with room for so many bytes, which takes at most `most` of them in one call, and of
    /// which the calls of these numbers fail.
    pub fn new(
        alloc: Global,
        room: usize,
        most: usize,
        fails: Calls,
    ) -> Result<MemorySink, NoMemory>
        requires { 0 < most }
        ensures { IfOk result (λ s. s ≡ record { room = room; most = most; fails = fails; calls = 0; faults = 0; written = [] }) }
    {
        let Ok(bytes) = Vec::with_capacity(alloc, room) else {
            return Err(NoMemory);
        };
        Ok(MemorySink {
            room,
            most,
            fails,
            calls: 0,
            faults: 0,
            bytes,
        })
    }

    /// The bytes that were written.
    pub fn written(&self) -> &[u8]
        ensures { result.now ≡ self.now.written }
    {
        self.bytes.as_slice()
    }
}

impl Sink for MemorySink {
    ghost written = { λ s. Some s.written };

    ghost faults = { λ s. s.faults };

    fn put(&mut self, b: &[u8]) -> Result<usize, WriteFault>
        requires { 0 < length b.now }
        ensures exactly { OkIff result (is_put_fault self.old ≡ false) (put_len self.old b.now) }
        ensures after { self.new ≡ after_put self.old b.now }

        // What every sink promises.
        ensures some { IfOk result (λ n. (0 < n) × (n ≤ length b.now)) }
        ensures front { IfOk result (λ n. Appended (Some self.old.written) (Some self.new.written) (take n b.now)) }
        ensures nothing { OnErr result (Some self.new.written ≡ Some self.old.written) }
        ensures cause { OnErr result (Rose self.old.faults self.new.faults) }
        ensures counted { self.old.faults ≤ self.new.faults }
    {
        self.calls = one_more_than(self.calls);
        let left = self.room - self.bytes.len();
        if left == 0 || self.fails.contains(self.calls) {
            self.faults = one_more_than(self.faults);
            return Err(WriteFault);
        }
        let taken = b.len().min(self.most).min(left);
        self.bytes.extend_from_slice(&b[..taken]).unwrap();
        Ok(taken)
    }
}
