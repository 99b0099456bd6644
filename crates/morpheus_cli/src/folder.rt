use project_store::{Store, StoreFault, WriteFailed};
use std::alloc::Global;
use std::io::{ErrorKind, Read};
use std::path::Path;
use std::rt::Files;
use std::{fs, io};

/// The most bytes that are read of one file.
const MOST_BYTES: u64 = 4_294_967_295;

/// The current folder, as the place where files are read and written. It tells nothing of what it
/// holds.
#[derive(Drop)]
pub(crate) struct FolderStore<'a, R: Files> {
    files: &'a R,
    read_faults: u64,
    write_faults: u64,
}

impl<'a, R: Files> FolderStore<'a, R> {
    ghost use Rattle.std.specs.Prelude.{◌≡◌};

    pub(crate) fn new(files: &'a R) -> Self
        ensures read_faults { result.read_faults ≡ 0 }
        ensures write_faults { result.write_faults ≡ 0 }
    {
        FolderStore {
            files,
            read_faults: 0,
            write_faults: 0,
        }
    }
}

/// The bytes of a file. One that is longer than `MOST_BYTES` is an error, so that the reading ends.
fn read_file<R: Files>(files: &R, alloc: Global, name: &str) -> io::Result<Vec<u8>> {
    let mut bytes = Vec::new(alloc);
    let mut front = fs::open(files, name)?.take(MOST_BYTES + 1);
    let count = front.read_to_end(&mut bytes)?;
    if count as u64 > MOST_BYTES {
        return Err(io::Error::from(ErrorKind::FileTooLarge));
    }
    Ok(bytes)
}

/// Puts the bytes into a file, and makes the folders that it stands in where they are missing.
fn write_file<R: Files>(files: &R, name: &str, bytes: &[u8]) -> io::Result<()> {
    if let Some(folder) = Path::new(name).parent() {
        fs::create_dir_all(files, folder)?;
    }
    fs::write(files, name, bytes)
}

impl<'a, R: Files> Store for FolderStore<'a, R> {
    ghost use Rattle.morpheus_cli.specs.States.{folder_state};

    ghost state = { λ store. folder_state store.read_faults store.write_faults };

    fn read(&mut self, alloc: Global, name: &str) -> Result<Vec<u8>, StoreFault> {
        match read_file(self.files, alloc, name) {
            Ok(bytes) => Ok(bytes),
            Err(error) if error.kind() == ErrorKind::OutOfMemory => Err(StoreFault::Memory),
            Err(_) => {
                self.read_faults = self.read_faults.saturating_add(1);
                Err(StoreFault::Failed)
            }
        }
    }

    fn write(&mut self, name: &str, bytes: &[u8]) -> Result<(), WriteFailed> {
        if write_file(self.files, name, bytes).is_err() {
            self.write_faults = self.write_faults.saturating_add(1);
            return Err(WriteFailed);
        }
        Ok(())
    }

    ghost room_is_told = { λ _ told. absurd told };
}

#[cfg(test)]
mod tests {
    use super::*;
    use std::test::Fail;

    #[test]
    fn a_folder_gives_back_what_was_written(rt: HostRuntime) -> Result<(), Fail> {
        let mut store = FolderStore::new(&rt);
        store.write("folder-test/inner/a.c", b"int x;\n")?;
        let bytes = store.read(rt.alloc(), "folder-test/inner/a.c")?;
        assert_eq!(rt; bytes.as_slice(), b"int x;\n".as_slice());
        fs::remove_dir_all(&rt, "folder-test")?;
        assert_eq!(rt;
            store.read(rt.alloc(), "folder-test/inner/a.c").err(),
            Some(StoreFault::Failed)
        );
        assert_eq!(rt; store.read_faults, 1);
        assert_eq!(rt; store.write_faults, 0);
        Ok(())
    }
}
