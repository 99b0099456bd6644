ghost use Rattle.std.specs.Prelude.{◌≡◌, ◌↔◌, ◌+◌, ◌≤◌, Some, None, length, IfOk, OnOk, OnErr, IsErr, IsErrOf, is_err, option_copied};
ghost use Rattle.project_store.specs.Lookup.{SameFiles, PutsFile};
ghost use Rattle.project_store.specs.Faults.{HasCause, count_after};
ghost use Rattle.project_store.specs.Room.{names_taken, LacksRoom};
ghost use Rattle.project_store.specs.Store.{is_failed};
ghost use Rattle.project_store.specs.PackedFiles.{spare_names, spare_bytes};

use crate::packed::PackedFiles;
use crate::store::{Store, StoreFault, WriteFailed};
use std::alloc::{AllocError, Global};
use text_edits::Files;

/// Files in memory that was reserved beforehand. No write wants memory: it fails only where the
/// room is too small, and a read only where the name isn't there.
///
/// It tells what it holds, and its room.
#[derive(Debug, Drop)]
pub struct SureStore {
    files: PackedFiles,
    names_left: u32,
    bytes_left: u64,
    read_faults: u64,
    write_faults: u64,
    ghost names_reserved: { names_left ≤ spare_names files },
    ghost bytes_reserved: { bytes_left ≤ spare_bytes files },
}

impl SureStore {
    ghost use Rattle.project_store.specs.SureStore.{held, IsNew};

    /// A store that holds the files, with room for so many further names and for so many bytes of
    /// further names and contents.
    pub fn new(alloc: Global, files: Files, names: u32, bytes: u64) -> Result<SureStore, AllocError>
        ensures { IfOk result (IsNew files names bytes) }
    {
        let mut packed = PackedFiles::from_files(alloc, &files.list)?;
        packed.reserve(names as usize, bytes as usize)?;
        Ok(SureStore {
            files: packed,
            names_left: names,
            bytes_left: bytes,
            read_faults: 0,
            write_faults: 0,
        })
    }

    /// What stands under the name.
    pub fn get(&self, name: &str) -> Option<&[u8]>
        ensures { option_copied result ≡ held self.now name.now }
    {
        self.files.get(name)
    }

    /// How many names a write under this name takes.
    fn names_for(&self, name: &str) -> u32
        ensures { result ≡ names_taken (held self.now name.now) }
    {
        match self.files.get(name) {
            Some(_) => 0,
            None => 1,
        }
    }
}

impl Store for SureStore {
    ghost use Rattle.project_store.specs.SureStore.{held, state_of, names_left_of, bytes_left_of, read_faults_of, write_faults_of};

    ghost state = { state_of };

    fn read(&mut self, alloc: Global, name: &str) -> Result<Vec<u8>, StoreFault>
        ensures fails { IsErrOf result StoreFault.Failed ↔ (held self.old name.now ≡ None) }
        ensures bytes { IfOk result (λ bytes. held self.old name.now ≡ Some bytes.items) }
        ensures files { SameFiles (held self.old) (held self.new) }
        ensures names { names_left_of self.new ≡ names_left_of self.old }
        ensures room { bytes_left_of self.new ≡ bytes_left_of self.old }
        ensures read_faults { read_faults_of self.new
            ≡ count_after (is_failed result) (read_faults_of self.old) }
        ensures cause { HasCause (Unit {0}) (read_faults_of self.old) (read_faults_of self.new)
            (IsErrOf result StoreFault.Failed) }
        ensures write_faults { write_faults_of self.new ≡ write_faults_of self.old }
    {
        match self.files.get(name) {
            Some(bytes) => Ok(Vec::from_slice(alloc, bytes)?),
            None => {
                self.read_faults = self.read_faults.saturating_add(1);
                Err(StoreFault::Failed)
            }
        }
    }

    fn write(&mut self, name: &str, bytes: &[u8]) -> Result<(), WriteFailed>
        ensures fails { IsErr result
            ↔ LacksRoom (held self.old name.now) (names_left_of self.old) (bytes_left_of self.old)
            (length name.now + length bytes.now) }
        ensures ok { OnOk result (PutsFile (held self.old) name.now bytes.now (held self.new)) }
        ensures names { OnOk result
            (names_left_of self.new + names_taken (held self.old name.now) ≡ names_left_of self.old) }
        ensures room { OnOk result
            (bytes_left_of self.new + length name.now + length bytes.now ≡ bytes_left_of self.old) }
        ensures err { OnErr result (SameFiles (held self.old) (held self.new)) }
        ensures err_names { OnErr result (names_left_of self.new ≡ names_left_of self.old) }
        ensures err_room { OnErr result (bytes_left_of self.new ≡ bytes_left_of self.old) }
        ensures write_faults { write_faults_of self.new
            ≡ count_after (is_err result) (write_faults_of self.old) }
        ensures cause { HasCause (Unit {0}) (write_faults_of self.old) (write_faults_of self.new) (IsErr result) }
        ensures read_faults { read_faults_of self.new ≡ read_faults_of self.old }
    {
        let names = self.names_for(name);
        let room = name.len() as u64 + bytes.len() as u64;
        if self.names_left < names
            || self.bytes_left < room
            || self.files.put(name, bytes).is_err()
        {
            self.write_faults = self.write_faults.saturating_add(1);
            return Err(WriteFailed);
        }
        self.names_left -= names;
        self.bytes_left -= room;
        Ok(())
    }

    ghost room_is_told = { λ _ told. told };
}
