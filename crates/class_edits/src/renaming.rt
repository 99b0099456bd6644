//! The files in which listed tokens have another name, and how many these are.
ghost use Rattle.std.specs.Prelude.{◌≡◌, ℕ, List, length, None, IfOk};
ghost use Rattle.file_edits.specs.View.{fault_view};
ghost use Rattle.text_edits.specs.Files.{plain_files};
ghost use Rattle.renamings.specs.Renamings.{renamed_files};
ghost use Rattle.tied_tokens.specs.Tokens.{plain_file_tokens};
ghost use Rattle.reference_classes.specs.Renamed.{count_tokens, count_files};
ghost use Rattle.class_edits.specs.Listed.{spans_in, renaming_of, tokens_below, StandApart};

use crate::edits::edits_of;
use c_text::FileToken;
use cond_formula::NoMemory;
use file_edits::{EditError, apply};
use std::alloc::{AllocError, Global};
use text_edits::Files;

/// The error of edits that have no fault.
fn want_of_memory(error: &EditError) -> NoMemory
    requires { fault_view error.now ≡ None }
{
    match error {
        EditError::Memory => AllocError,
        EditError::PastEnd(_) => unreachable!(),
        EditError::Overlap(..) => unreachable!(),
    }
}

/// The files in which the tokens have the new name, and all else is as it was. For 4,294,967,296 tokens and more the answer is want
/// of memory.
pub fn renamed(
    alloc: Global,
    files: &Files,
    tokens: &[FileToken],
    new: &[u8],
) -> Result<Files, NoMemory>
    requires { StandApart (plain_files files.now) (plain_file_tokens tokens.now) }
    ensures { IfOk result (λ done. (old : List ℕ)
        → plain_files done ≡ renamed_files (renaming_of (length files.now.list.items) (plain_file_tokens tokens.now) old new.now) 0 (plain_files files.now)) }
{
    let edits = edits_of(alloc, files.list.len(), tokens, new)?;
    if edits.len() > u32::MAX as usize {
        return Err(AllocError);
    }
    match apply(alloc, files, &edits) {
        Ok(done) => Ok(done),
        Err(error) => Err(want_of_memory(&error)),
    }
}

/// How many tokens are renamed, and in how many files.
#[derive(Clone, Copy, Debug, PartialEq, Eq)]
pub struct RenamedCount {
    pub tokens: usize,
    pub files: usize,
}

/// How many of the tokens stand in the first so many files.
fn count_below(files: usize, tokens: &[FileToken]) -> usize
    ensures { result ≡ length (tokens_below files (plain_file_tokens tokens.now)) }
{
    let mut count = 0;
    for token in tokens {
        if (token.file as usize) < files {
            count += 1;
        }
    }
    count
}

/// How many of the tokens stand in a file.
fn count_in(number: usize, tokens: &[FileToken]) -> usize
    ensures { result ≡ length (spans_in number (plain_file_tokens tokens.now)) }
{
    let mut count = 0;
    for token in tokens {
        if token.file as usize == number {
            count += 1;
        }
    }
    count
}

/// In how many of the files some of the tokens stand.
fn count_touched(files: &Files, tokens: &[FileToken]) -> usize
    ensures { (old new : List ℕ)
        → result ≡ count_files (renaming_of (length files.now.list.items) (plain_file_tokens tokens.now) old new) 0 (plain_files files.now) }
{
    let mut count = 0;
    for number in 0..files.list.len() {
        if count_in(number, tokens) != 0 {
            count += 1;
        }
    }
    count
}

/// How many of the tokens are renamed in the files, and in how many of these files.
pub fn count_renamed(files: &Files, tokens: &[FileToken]) -> RenamedCount
    ensures tokens { (old new : List ℕ)
        → result.tokens ≡ count_tokens (renaming_of (length files.now.list.items) (plain_file_tokens tokens.now) old new) 0 (plain_files files.now) }
    ensures files { (old new : List ℕ)
        → result.files ≡ count_files (renaming_of (length files.now.list.items) (plain_file_tokens tokens.now) old new) 0 (plain_files files.now) }
{
    RenamedCount {
        tokens: count_below(files.list.len(), tokens),
        files: count_touched(files, tokens),
    }
}
