ghost use Rattle.std.specs.Prelude.{◌≡◌, ◌↔◌, ◌⊎◌, Some, None, IfOk, OnOk, OnErr, IsErr, IsErrOf, is_err, option_copied};
ghost use Rattle.project_store.specs.Lookup.{SameFiles, PutsFile};
ghost use Rattle.project_store.specs.Faults.{HasCause, count_after};
ghost use Rattle.project_store.specs.Store.{is_failed};

use crate::calls::Calls;
use crate::lookup::{content_of, put};
use crate::store::{Store, StoreFault, WriteFailed};
use std::alloc::Global;
use text_edits::Files;

/// Files in memory. The calls whose numbers were given beforehand fail, and so do a read of a name
/// that isn't there and a write that finds no memory.
///
/// It tells what it holds, and no room.
#[derive(Debug, Drop)]
pub struct MemoryStore {
    alloc: Global,
    files: Files,
    calls: Calls,
    read_faults: u64,
    write_faults: u64,
}

impl MemoryStore {
    ghost use Rattle.project_store.specs.MemoryStore.{held, IsNew};

    /// A store that holds the files, and fails at the calls with the numbers in `fail`, counted
    /// from 1 over all reads and writes.
    pub fn new(alloc: Global, files: Files, fail: Vec<u32>) -> MemoryStore
        ensures { IsNew files fail.items result }
    {
        MemoryStore {
            alloc,
            files,
            calls: Calls::new(fail),
            read_faults: 0,
            write_faults: 0,
        }
    }

    /// What stands under the name.
    pub fn get(&self, name: &str) -> Option<&[u8]>
        ensures { option_copied result ≡ held self.now name.now }
    {
        content_of(&self.files, name)
    }
}

impl Store for MemoryStore {
    ghost use Rattle.project_store.specs.Calls.{NextFails, CountsCall};
    ghost use Rattle.project_store.specs.MemoryStore.{held, state_of, calls_of, read_faults_of, write_faults_of};

    ghost state = { state_of };

    fn read(&mut self, alloc: Global, name: &str) -> Result<Vec<u8>, StoreFault>
        ensures fails { IsErrOf result StoreFault.Failed
            ↔ (NextFails (calls_of self.old) ⊎ (held self.old name.now ≡ None)) }
        ensures bytes { IfOk result (λ bytes. held self.old name.now ≡ Some bytes.items) }
        ensures files { SameFiles (held self.old) (held self.new) }
        ensures calls { CountsCall (calls_of self.old) (calls_of self.new) }
        ensures read_faults { read_faults_of self.new
            ≡ count_after (is_failed result) (read_faults_of self.old) }
        ensures cause { HasCause (Unit {0}) (read_faults_of self.old) (read_faults_of self.new)
            (IsErrOf result StoreFault.Failed) }
        ensures write_faults { write_faults_of self.new ≡ write_faults_of self.old }
    {
        let fails = self.calls.next_fails();
        match content_of(&self.files, name) {
            Some(bytes) if !fails => Ok(Vec::from_slice(alloc, bytes)?),
            _ => {
                self.read_faults = self.read_faults.saturating_add(1);
                Err(StoreFault::Failed)
            }
        }
    }

    fn write(&mut self, name: &str, bytes: &[u8]) -> Result<(), WriteFailed>
        ensures fails { NextFails (calls_of self.old) → IsErr result }
        ensures ok { OnOk result (PutsFile (held self.old) name.now bytes.now (held self.new)) }
        ensures err { OnErr result (SameFiles (held self.old) (held self.new)) }
        ensures calls { CountsCall (calls_of self.old) (calls_of self.new) }
        ensures write_faults { write_faults_of self.new
            ≡ count_after (is_err result) (write_faults_of self.old) }
        ensures cause { HasCause (Unit {0}) (write_faults_of self.old) (write_faults_of self.new) (IsErr result) }
        ensures read_faults { read_faults_of self.new ≡ read_faults_of self.old }
    {
        if self.calls.next_fails() || put(self.alloc, &mut self.files, name, bytes).is_err() {
            self.write_faults = self.write_faults.saturating_add(1);
            return Err(WriteFailed);
        }
        Ok(())
    }

    ghost room_is_told = { λ _ told. absurd told };
}
