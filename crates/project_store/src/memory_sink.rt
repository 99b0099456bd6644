ghost use Rattle.std.specs.Prelude.{◌≡◌, ◌++◌, length, take, IfOk, OnErr, IsErr, is_err};
ghost use Rattle.project_store.specs.Faults.{HasCause, count_after};

use crate::calls::Calls;
use crate::sink::{Sink, SinkFailed};
use std::alloc::Global;

/// Bytes in memory. The calls whose numbers were given beforehand fail, and so does one that finds
/// no memory; the others take the whole piece.
///
/// It tells what it took, and no room.
#[derive(Debug, Drop)]
pub struct MemorySink {
    taken: Vec<u8>,
    calls: Calls,
    faults: u64,
}

impl MemorySink {
    ghost use Rattle.project_store.specs.MemorySink.{taken_by, IsNew};

    /// A sink that took nothing yet, and fails at the calls with the numbers in `fail`, counted
    /// from 1.
    pub fn new(alloc: Global, fail: Vec<u32>) -> MemorySink
        ensures { IsNew fail.items result }
    {
        MemorySink {
            taken: Vec::new(alloc),
            calls: Calls::new(fail),
            faults: 0,
        }
    }

    /// The bytes taken so far.
    pub fn bytes(&self) -> &[u8]
        ensures { result.now ≡ taken_by self.now }
    {
        self.taken.as_slice()
    }
}

impl Sink for MemorySink {
    ghost use Rattle.project_store.specs.Sink.{IsFault};
    ghost use Rattle.project_store.specs.Calls.{NextFails, CountsCall};
    ghost use Rattle.project_store.specs.MemorySink.{taken_by, state_of, calls_of, faults_of};

    ghost state = { state_of };

    fn write(&mut self, bytes: &[u8]) -> Result<usize, SinkFailed>
        ensures fails { NextFails (calls_of self.old) → IsErr result }
        ensures whole { IfOk result (λ n. n ≡ length bytes.now) }
        ensures ok { IfOk result (λ n. taken_by self.new ≡ taken_by self.old ++ take n bytes.now) }
        ensures err { OnErr result (taken_by self.new ≡ taken_by self.old) }
        ensures calls { CountsCall (calls_of self.old) (calls_of self.new) }
        ensures faults { faults_of self.new ≡ count_after (is_err result) (faults_of self.old) }
        ensures cause { HasCause (Unit {0}) (faults_of self.old) (faults_of self.new) (IsFault result bytes.now) }
    {
        if self.calls.next_fails() || self.taken.extend_from_slice(bytes).is_err() {
            self.faults = self.faults.saturating_add(1);
            return Err(SinkFailed);
        }
        Ok(bytes.len())
    }

    ghost room_is_told = { λ _ told. absurd told };
}
