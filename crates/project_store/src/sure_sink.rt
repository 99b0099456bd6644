ghost use Rattle.std.specs.Prelude.{◌≡◌, ◌↔◌, ◌+◌, ◌-◌, ◌<◌, ◌≤◌, ◌++◌, length, take, min, vec_len, vec_capacity, IfOk, OnErr, IsErr, is_err};
ghost use Rattle.project_store.specs.Faults.{HasCause, count_after};

use crate::sink::{Sink, SinkFailed};
use std::alloc::{AllocError, Global};

/// Bytes in memory that was reserved beforehand. No call wants memory: each takes of its piece
/// what fits the room, and fails only where none of it does.
///
/// It tells what it took, and its room.
#[derive(Debug, Drop)]
pub struct SureSink {
    taken: Vec<u8>,
    room: u64,
    faults: u64,
    ghost reserved: { vec_len taken + room ≤ vec_capacity taken },
}

impl SureSink {
    ghost use Rattle.project_store.specs.SureSink.{taken_by, IsNew};

    /// A sink with room for so many bytes.
    pub fn new(alloc: Global, bytes: u64) -> Result<SureSink, AllocError>
        ensures { IfOk result (IsNew bytes) }
    {
        Ok(SureSink {
            taken: Vec::with_capacity(alloc, bytes as usize)?,
            room: bytes,
            faults: 0,
        })
    }

    /// The bytes taken so far.
    pub fn bytes(&self) -> &[u8]
        ensures { result.now ≡ taken_by self.now }
    {
        self.taken.as_slice()
    }

    /// Takes bytes for which there is room.
    fn take(&mut self, bytes: &[u8])
        requires { length bytes.now ≤ self.old.room }
        ensures taken { self.new.taken.items ≡ self.old.taken.items ++ bytes.now }
        ensures room { self.new.room + length bytes.now ≡ self.old.room }
        ensures faults { self.new.faults ≡ self.old.faults }
    {
        // The room is reserved, so there is no error.
        let _ = self.taken.extend_from_slice(bytes);
        self.room -= bytes.len() as u64;
    }
}

impl Sink for SureSink {
    ghost use Rattle.project_store.specs.Sink.{IsFault};
    ghost use Rattle.project_store.specs.SureSink.{taken_by, state_of, room_of, faults_of};

    ghost state = { state_of };

    fn write(&mut self, bytes: &[u8]) -> Result<usize, SinkFailed>
        ensures fails { IsErr result ↔ ((room_of self.old ≡ 0) × (0 < length bytes.now)) }
        ensures fits { IfOk result (λ n. n ≡ min (length bytes.now) (room_of self.old)) }
        ensures ok { IfOk result (λ n. taken_by self.new ≡ taken_by self.old ++ take n bytes.now) }
        ensures room { IfOk result (λ n. room_of self.new + n ≡ room_of self.old) }
        ensures err { OnErr result (taken_by self.new ≡ taken_by self.old) }
        ensures err_room { OnErr result (room_of self.new ≡ room_of self.old) }
        ensures faults { faults_of self.new ≡ count_after (is_err result) (faults_of self.old) }
        ensures cause { HasCause (Unit {0}) (faults_of self.old) (faults_of self.new) (IsFault result bytes.now) }
    {
        if self.room == 0 && !bytes.is_empty() {
            self.faults = self.faults.saturating_add(1);
            return Err(SinkFailed);
        }
        let n = (bytes.len() as u64).min(self.room) as usize;
        self.take(&bytes[..n]);
        Ok(n)
    }

    ghost room_is_told = { λ _ told. told };
}
