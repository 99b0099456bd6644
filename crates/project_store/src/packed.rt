ghost use Rattle.std.specs.Prelude.{◌≡◌, ◌+◌, ◌<◌, ◌≤◌, ◌++◌, ◌∷◌, [], length, map, vec_len, vec_capacity, All, ◌⊎◌, IfOk, OnOk, OnErr, option_copied};
ghost use Rattle.std.specs.List.{position_from};
ghost use Rattle.text_edits.specs.Files.{lookup_of, plain_file};
ghost use Rattle.project_store.specs.Lookup.{PutsFile};
ghost use Rattle.project_store.specs.Named.{has_name};
ghost use Rattle.project_store.specs.Room.{names_taken, LacksRoom};
ghost use Rattle.project_store.specs.Packed.{bytes_at, file_at, IsPieceWithin, IsWithin};

use std::alloc::{AllocError, Global};
use text_edits::SourceFile;

/// Bytes of a buffer: from `start` on, up to and without `end`.
#[derive(Clone, Copy, Debug)]
pub(crate) struct Piece {
    start: usize,
    end: usize,
}

/// Where in the buffer a file's name and content stand.
#[derive(Clone, Copy, Debug)]
pub(crate) struct Entry {
    name: Piece,
    content: Piece,
}

/// Files in an order, whose names and contents stand one after another in one buffer. A content
/// that was replaced stays in the buffer unused.
#[derive(Debug, Drop)]
pub(crate) struct PackedFiles {
    buffer: Vec<u8>,
    entries: Vec<Entry>,
    ghost within: { All (IsWithin (vec_len buffer)) entries.items },
}

/// The bytes of the piece.
fn bytes_of<'a>(bytes: &'a [u8], piece: &Piece) -> &'a [u8]
    requires { IsPieceWithin (length bytes.now) piece.now }
    ensures { result.now ≡ bytes_at bytes.now piece.now }
{
    &bytes[piece.start..piece.end]
}

/// The number of the first entry with the name.
fn place_of(bytes: &[u8], entries: &[Entry], name: &str) -> Option<usize>
    requires { All (IsWithin (length bytes.now)) entries.now }
    ensures { result
        ≡ position_from (λ entry. has_name name.now (file_at bytes.now entry)) 0 entries.now }
{
    for (at, entry) in entries.iter().enumerate() {
        if bytes_of(bytes, &entry.name) == name.as_bytes() {
            return Some(at);
        }
    }
    None
}

/// Appends to the buffer.
fn append(buffer: &mut Vec<u8>, bytes: &[u8]) -> Result<Piece, AllocError>
    ensures ok { OnOk result (buffer.new.items ≡ buffer.old.items ++ bytes.now) }
    ensures start { IfOk result (λ piece. piece.start ≡ length buffer.old.items) }
    ensures end { IfOk result (λ piece. piece.end ≡ length buffer.old.items + length bytes.now) }
    ensures err { OnErr result (buffer.new.items ≡ buffer.old.items) }
    ensures room { OnErr result (vec_capacity buffer.old < vec_len buffer.old + length bytes.now) }
    ensures capacity { vec_capacity buffer.old ≤ vec_capacity buffer.new }
{
    let start = buffer.len();
    buffer.extend_from_slice(bytes)?;
    Ok(Piece {
        start,
        end: buffer.len(),
    })
}

impl PackedFiles {
    ghost use Rattle.project_store.specs.PackedFiles.{files_of, spare_names, spare_bytes, ReplacesContent};

    pub(crate) fn new(alloc: Global) -> PackedFiles
        ensures { files_of result ≡ [] }
    {
        PackedFiles {
            buffer: Vec::new(alloc),
            entries: Vec::new(alloc),
        }
    }

    /// The content of the first file with the name.
    pub(crate) fn get(&self, name: &str) -> Option<&[u8]>
        ensures { option_copied result ≡ lookup_of (files_of self.now) name.now }
    {
        let at = self.place(name)?;
        Some(bytes_of(&self.buffer, &self.entries[at].content))
    }

    /// The number of the first file with the name.
    fn place(&self, name: &str) -> Option<usize>
        ensures { result ≡ position_from (has_name name.now) 0 (files_of self.now) }
    {
        place_of(&self.buffer, &self.entries, name)
    }

    /// Makes room for so many further files, of so many further bytes in all.
    pub(crate) fn reserve(&mut self, names: usize, bytes: usize) -> Result<(), AllocError>
        ensures files { files_of self.new ≡ files_of self.old }
        ensures names { OnOk result (names ≤ spare_names self.new) }
        ensures bytes { OnOk result (bytes ≤ spare_bytes self.new) }
    {
        self.entries.reserve(names)?;
        self.buffer.reserve(bytes)?;
        Ok(())
    }

    /// Adds a file at the end.
    pub(crate) fn add(&mut self, name: &str, bytes: &[u8]) -> Result<(), AllocError>
        ensures ok { OnOk result
            (files_of self.new ≡ files_of self.old ++ record { name = name.now; bytes = bytes.now } ∷ []) }
        ensures err { OnErr result (files_of self.new ≡ files_of self.old) }
        ensures full { OnErr result
            ((spare_names self.old ≡ 0) ⊎ (spare_bytes self.old < length name.now + length bytes.now)) }
        ensures names { OnOk result (spare_names self.old ≤ spare_names self.new + 1) }
        ensures bytes { OnOk result
            (spare_bytes self.old ≤ spare_bytes self.new + length name.now + length bytes.now) }
    {
        let name = append(&mut self.buffer, name.as_bytes())?;
        let content = append(&mut self.buffer, bytes)?;
        self.entries.push(Entry { name, content })?;
        Ok(())
    }

    /// Gives the file at the place other bytes.
    fn replace(&mut self, at: usize, bytes: &[u8]) -> Result<(), AllocError>
        requires { at < length (files_of self.old) }
        ensures ok { OnOk result
            (ReplacesContent (files_of self.old) at bytes.now (files_of self.new)) }
        ensures err { OnErr result (files_of self.new ≡ files_of self.old) }
        ensures full { OnErr result (spare_bytes self.old < length bytes.now) }
        ensures names { OnOk result (spare_names self.new ≡ spare_names self.old) }
        ensures bytes { OnOk result (spare_bytes self.old ≤ spare_bytes self.new + length bytes.now) }
    {
        let content = append(&mut self.buffer, bytes)?;
        self.entries[at].content = content;
        Ok(())
    }

    /// Puts the bytes under the name: in place of what the first file with the name holds, or in a
    /// file of their own at the end.
    pub(crate) fn put(&mut self, name: &str, bytes: &[u8]) -> Result<(), AllocError>
        ensures ok { OnOk result
            (PutsFile (lookup_of (files_of self.old)) name.now bytes.now (lookup_of (files_of self.new))) }
        ensures err { OnErr result (files_of self.new ≡ files_of self.old) }
        ensures full { OnErr result
            (LacksRoom (lookup_of (files_of self.old) name.now) (spare_names self.old) (spare_bytes self.old)
            (length name.now + length bytes.now)) }
        ensures names { OnOk result
            (spare_names self.old ≤ spare_names self.new + names_taken (lookup_of (files_of self.old) name.now)) }
        ensures bytes { OnOk result
            (spare_bytes self.old ≤ spare_bytes self.new + length name.now + length bytes.now) }
    {
        match self.place(name) {
            Some(at) => self.replace(at, bytes)?,
            None => self.add(name, bytes)?,
        }
        Ok(())
    }

    /// The files, with their bytes in one buffer.
    pub(crate) fn from_files(alloc: Global, files: &[SourceFile]) -> Result<PackedFiles, AllocError>
        ensures { IfOk result (λ packed. files_of packed ≡ map plain_file files.now) }
    {
        let mut packed = PackedFiles::new(alloc);
        for file in files {
            packed.add(file.name.as_str(), &file.bytes)?;
        }
        Ok(packed)
    }
}
