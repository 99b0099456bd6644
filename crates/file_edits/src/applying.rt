//! Files with edits made.
ghost use Rattle.std.specs.Prelude.{◌≡◌, ◌<◌, ◌^◌, length, map, IfOk, MatchResult, None};
ghost use Rattle.text_edits.specs.Files.{plain_file, plain_files};
ghost use Rattle.file_edits.specs.Edits as spec;
ghost use Rattle.file_edits.specs.Faults.{fault_of};
ghost use Rattle.file_edits.specs.Places.{plain_edit, edits_in, AreWithin, AreApart};
ghost use Rattle.file_edits.specs.View.{fault_view};

use crate::edit::{Edit, EditError};
use crate::faults::{overlap, past_end};
use crate::writing::edited;
use std::alloc::{AllocError, Global};
use text_edits::{Files, SourceFile};

/// Finds the fault of edits of these files, if they have one.
fn find_fault(files: &Files, edits: &[Edit]) -> Result<(), EditError>
    requires { length edits.now < 2 ^ 32 }
    ensures { MatchResult result
        (λ _. fault_of (plain_files files.now) (map plain_edit edits.now) ≡ None)
        (λ error. fault_of (plain_files files.now) (map plain_edit edits.now) ≡ fault_view error) }
{
    if let Some(first) = past_end(files, edits) {
        return Err(EditError::PastEnd(first as u32));
    }
    if let Some((first, second)) = overlap(edits) {
        return Err(EditError::Overlap(first as u32, second as u32));
    }
    Ok(())
}

/// A file with edits made.
fn edited_file(
    alloc: Global,
    file: &SourceFile,
    number: usize,
    edits: &[Edit],
) -> Result<SourceFile, AllocError>
    requires within { AreWithin (length file.now.bytes.items) (edits_in number edits.now) }
    requires apart { AreApart (map plain_edit edits.now) }
    ensures { IfOk result (λ done. plain_file done
        ≡ spec.with_bytes (spec.edited (edits_in number edits.now) file.now.bytes.items) (plain_file file.now)) }
{
    let name = file.name.clone()?;
    let bytes = edited(alloc, &file.bytes, number, edits)?;
    Ok(SourceFile { name, bytes })
}

/// The files with edits made that have no fault.
fn edited_files(alloc: Global, files: &Files, edits: &[Edit]) -> Result<Files, AllocError>
    requires { fault_of (plain_files files.now) (map plain_edit edits.now) ≡ None }
    ensures { IfOk result (λ done. plain_files done ≡ spec.edited_files 0 (map plain_edit edits.now) (plain_files files.now)) }
{
    let mut list = Vec::new(alloc);
    for (number, file) in files.list.iter().enumerate() {
        list.push(edited_file(alloc, file, number, edits)?)?;
    }
    Ok(Files { list })
}

/// The files with each span replaced by the edit's text, and every other byte as it was. Of several empty spans at
/// one place the texts come in the order of the list, and before that of a span that starts there.
pub fn apply(alloc: Global, files: &Files, edits: &[Edit]) -> Result<Files, EditError>
    requires { length edits.now < 2 ^ 32 }
    ensures fault { MatchResult result
        (λ _. fault_of (plain_files files.now) (map plain_edit edits.now) ≡ None)
        (λ error. fault_of (plain_files files.now) (map plain_edit edits.now) ≡ fault_view error) }
    ensures edited { IfOk result (λ done. plain_files done ≡ spec.edited_files 0 (map plain_edit edits.now) (plain_files files.now)) }
{
    find_fault(files, edits)?;
    let done = edited_files(alloc, files, edits)?;
    Ok(done)
}
