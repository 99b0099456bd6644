//! Cases: a command over files, and the answer that is wanted.
ghost use Rattle.std.specs.Prelude.{◌≡◌, ◌++◌, ◌∷◌, [], List, ℕ, IfOk, map, option_map, slice_get};
ghost use Rattle.std.specs.String.{string_bytes};
ghost use Rattle.text_edits.specs.Files.{plain_file, plain_files, lookup_of};
ghost use Rattle.vector_cases.specs.Fields.{Value, Reads, bytes};
ghost use Rattle.vector_cases.specs.Lines.{files_values, words_values, named, target_of, target_files, SaysWritten, IsLineOf};

use crate::fields::{Fields, LineError};
use std::alloc::{AllocError, Global};
use text_edits::{Files, SourceFile};

/// What the cases of a file say of what a command writes.
#[derive(Clone, Copy, Debug, PartialEq, Eq)]
pub enum Output {
    /// The bytes of `OUT/FILE`, where the status is 0.
    Written,
    /// How many files it writes, and their names and bytes.
    Files,
    /// Nothing: the command writes no file.
    Nothing,
}

/// A command over a store, with the answer that is wanted.
#[derive(Debug, Drop)]
pub struct Case {
    pub files: Files,
    pub words: Vec<String>,
    pub status: u8,
    pub printed: Vec<u8>,
    /// The name under which `quick` may write.
    pub target: Option<String>,
    /// What is written.
    pub written: Files,
    pub label: String,
}

impl Case {
    /// The case that a line holds.
    pub fn read(alloc: Global, output: Output, line: &str) -> Result<Case, LineError>
        ensures { IfOk result (IsLineOf line.now output) }
    {
        let mut fields = Fields::new(line);
        let files = read_files(alloc, &mut fields)?;
        let words = read_words(alloc, &mut fields)?;
        let status = fields.number(alloc)?;
        let printed = fields.bytes(alloc)?;
        let target = target_for(alloc, output, &words)?;
        let written = read_written(alloc, output, &mut fields, &target, status)?;
        let label = fields.text(alloc)?;
        fields.end()?;
        Ok(Case {
            files,
            words,
            status,
            printed,
            target,
            written,
            label,
        })
    }

    /// What is wanted under the name after the command, if anything.
    pub fn wanted_at(&self, name: &str) -> Option<&[u8]>
        ensures { option_map (λ bytes. bytes.now) result ≡ lookup_of (plain_files self.now.written ++ plain_files self.now.files) name.now }
    {
        match content(&self.written, name) {
            Some(bytes) => Some(bytes),
            None => content(&self.files, name),
        }
    }
}

/// The content of the first file with the name.
fn content<'f>(files: &'f Files, name: &str) -> Option<&'f [u8]>
    ensures { option_map (λ bytes. bytes.now) result ≡ lookup_of (plain_files files.now) name.now }
{
    for file in &files.list {
        if file.name.as_str() == name {
            return Some(file.bytes.as_slice());
        }
    }
    None
}

/// The number of files, and their names and bytes.
fn read_files(alloc: Global, fields: &mut Fields<'_>) -> Result<Files, LineError>
    ensures { IfOk result (λ files. Reads fields.old fields.new (files_values (plain_files files))) }
{
    let count = fields.number(alloc)?;
    let mut list = Vec::new(alloc);
    for _ in 0..count {
        let name = fields.text(alloc)?;
        let bytes = fields.bytes(alloc)?;
        list.push(SourceFile { name, bytes })?;
    }
    Ok(Files { list })
}

/// The number of words, and the words.
fn read_words(alloc: Global, fields: &mut Fields<'_>) -> Result<Vec<String>, LineError>
    ensures { IfOk result (λ words. Reads fields.old fields.new (words_values (map string_bytes words.items))) }
{
    let count = fields.number(alloc)?;
    let mut words = Vec::new(alloc);
    for _ in 0..count {
        words.push(fields.text(alloc)?)?;
    }
    Ok(words)
}

/// `OUT/FILE`, where the words are `quick FILE OLD NEW OUT`.
fn target_name(alloc: Global, words: &[String]) -> Result<Option<String>, AllocError>
    ensures { IfOk result (λ target. option_map string_bytes target ≡ named (slice_get (map string_bytes words.now) 1) (slice_get (map string_bytes words.now) 4)) }
{
    match (words.get(1), words.get(4)) {
        (Some(file), Some(out)) => Ok(Some(format!(in alloc; "{out}/{file}")?)),
        _ => Ok(None),
    }
}

/// The name under which `quick` may write.
fn target_for(alloc: Global, output: Output, words: &[String]) -> Result<Option<String>, AllocError>
    ensures { IfOk result (λ target. option_map string_bytes target ≡ target_of output (map string_bytes words.now)) }
{
    match output {
        Output::Written => target_name(alloc, words),
        Output::Files => Ok(None),
        Output::Nothing => Ok(None),
    }
}

/// What is written.
fn read_written(
    alloc: Global,
    output: Output,
    fields: &mut Fields<'_>,
    target: &Option<String>,
    status: u8,
) -> Result<Files, LineError>
    ensures { IfOk result (λ files. (values : List Value) × Reads fields.old fields.new values × SaysWritten output status (option_map string_bytes target.now) (plain_files files) values) }
{
    match output {
        Output::Written => read_target(alloc, fields, target, status),
        Output::Files => read_files(alloc, fields),
        Output::Nothing => Ok(Files {
            list: Vec::new(alloc),
        }),
    }
}

/// What `quick` writes: one file, where the status is 0.
fn read_target(
    alloc: Global,
    fields: &mut Fields<'_>,
    target: &Option<String>,
    status: u8,
) -> Result<Files, LineError>
    ensures { IfOk result (λ files. (said : List ℕ) × Reads fields.old fields.new (bytes said ∷ []) × (plain_files files ≡ target_files status (option_map string_bytes target.now) said)) }
{
    let bytes = fields.bytes(alloc)?;
    let mut list = Vec::new(alloc);
    if let Some(name) = target
        && status == 0
    {
        let name = name.clone()?;
        list.push(SourceFile { name, bytes })?;
    }
    Ok(Files { list })
}

/// A second copy of a file.
fn copy_of_file(alloc: Global, file: &SourceFile) -> Result<SourceFile, AllocError>
    ensures { IfOk result (λ copy. plain_file copy ≡ plain_file file.now) }
{
    let name = file.name.clone()?;
    let bytes = Vec::from_slice(alloc, &file.bytes)?;
    Ok(SourceFile { name, bytes })
}

/// A second copy of the files.
pub fn copy_of(alloc: Global, files: &Files) -> Result<Files, AllocError>
    ensures { IfOk result (λ copy. plain_files copy ≡ plain_files files.now) }
{
    let mut list = Vec::new(alloc);
    for file in &files.list {
        let copy = copy_of_file(alloc, file)?;
        list.push(copy)?;
    }
    Ok(Files { list })
}
