ghost use Rattle.std.specs.Prelude.{◌≡◌, ◌+◌, ◌≤◌, length, IfOk, OnOk, OnErr, IsErr, IsErrOf};
ghost use Rattle.project_store.specs.Lookup.{PutsFile, LeavesPart};
ghost use Rattle.project_store.specs.States.{StoreState, IsReadAlone, Stands, IsAbsent};
ghost use Rattle.project_store.specs.Faults.{HasCause};
ghost use Rattle.project_store.specs.Room.{names_taken, LacksRoom};

use std::alloc::{AllocError, Global};

/// Why a file wasn't read.
#[derive(Clone, Copy, Debug, PartialEq, Eq)]
pub enum StoreFault {
    /// The store failed, or it has no file of the name.
    Failed,
    /// There was no memory for the file's bytes.
    Memory,
}

impl From<AllocError> for StoreFault {
    ghost use Rattle.project_store.specs.declared.store.StoreFault.TheVariants.{Memory};

    ghost from_gives = { λ _ fault. fault ≡ Memory };

    fn from(_error: AllocError) -> StoreFault {
        StoreFault::Memory
    }
}

/// A file wasn't written, or only its front.
#[derive(Clone, Copy, Debug, PartialEq, Eq)]
pub struct WriteFailed;

/// A place where files are read and written by their names.
///
/// A store may tell what it holds, so that a caller knows which bytes it reads and what a write
/// changes. It may besides tell the room that it has left, and then a read fails only at a name
/// that isn't there, and a write only for want of room. One that tells nothing, as a folder of the
/// machine, still has its counts of faults: but for want of memory no call fails unless one of them
/// rose. The counts stand still at the end of `u64`.
pub trait Store {
    /// What the store tells and counts.
    ghost state: { Self → StoreState };

    /// The bytes of the file with the name.
    fn read(&mut self, alloc: Global, name: &str) -> Result<Vec<u8>, StoreFault>
        ensures bytes { IfOk result (λ bytes. Stands (state self.old) name.now bytes.items) }

        // `Failed` comes only where the count of read faults rose.
        ensures cause { HasCause (state self.old).exact (state self.old).read_faults (state self.new).read_faults
            (IsErrOf result StoreFault.Failed) }

        // Nothing that the store tells changes, whatever the result.
        ensures kept { IsReadAlone (state self.old) (state self.new) }

        // A store that tells its room fails only at a name that isn't there.
        ensures absent { IsErrOf result StoreFault.Failed → IsAbsent (state self.old) name.now };

    /// Puts the bytes under the name, in place of what stood there.
    fn write(&mut self, name: &str, bytes: &[u8]) -> Result<(), WriteFailed>
        ensures ok { OnOk result
            ((state self.old).tells → PutsFile (state self.old).file name.now bytes.now (state self.new).file) }
        ensures err { OnErr result
            ((state self.old).tells → LeavesPart (state self.old).file name.now bytes.now (state self.new).file) }
        ensures told { (state self.old).tells → (state self.new).tells }
        ensures exact { (state self.old).exact → (state self.new).exact }

        // A write fails only where the count of write faults rose.
        ensures cause { HasCause (state self.old).exact (state self.old).write_faults (state self.new).write_faults (IsErr result) }
        ensures read_faults { (state self.new).read_faults ≡ (state self.old).read_faults }

        // A store that tells its room fails where that is too small, and else takes of it at most
        // a new name, and the bytes of the name and the file.
        ensures full { OnErr result ((state self.old).tells_room
            → LacksRoom ((state self.old).file name.now) (state self.old).names_left (state self.old).bytes_left
            (length name.now + length bytes.now)) }
        ensures room_told { OnOk result ((state self.old).tells_room → (state self.new).tells_room) }
        ensures names { OnOk result ((state self.old).tells_room
            → (state self.old).names_left ≤ (state self.new).names_left + names_taken ((state self.old).file name.now)) }
        ensures room { OnOk result ((state self.old).tells_room
            → (state self.old).bytes_left ≤ (state self.new).bytes_left + length name.now + length bytes.now) };

    /// A store that tells its room tells what it holds.
    ghost room_is_told: { (store : Self) → (state store).tells_room → (state store).tells };
}
