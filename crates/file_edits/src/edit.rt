//! An edit of a file, and why edits aren't made.
ghost use Rattle.std.specs.Prelude.{◌≡◌};
ghost use Rattle.file_edits.specs.declared.edit.EditError.TheVariants.{Memory};

use std::alloc::{AllocError, AllocFailed};
use text_edits::Span;
use thiserror::Error;

/// A span of a file that is replaced by a text. An empty span is a place where the text is put in.
#[derive(Debug, Drop)]
pub struct Edit {
    /// The place of the file in the list of files, from 0.
    pub file: u32,
    pub span: Span,
    pub text: Vec<u8>,
}

/// Why edits aren't made. The numbers are places in the list of edits, from 0.
#[derive(Debug, Drop, Error)]
pub enum EditError {
    /// The file of the edit isn't there, or the edit's span ends past its end.
    #[error("edit {0} isn't within a file")]
    PastEnd(u32),
    /// The spans of the two edits share a byte, or one is empty and lies strictly inside the other.
    #[error("edits {0} and {1} overlap")]
    Overlap(u32, u32),
    /// Want of memory.
    #[error("want of memory")]
    Memory,
}

impl From<AllocError> for EditError {
    ghost from_gives = { λ _ error. error ≡ Memory };

    fn from(_error: AllocError) -> EditError {
        EditError::Memory
    }
}

impl<T: Drop> From<AllocFailed<T>> for EditError {
    ghost from_gives = { λ _ error. error ≡ Memory };

    fn from(_error: AllocFailed<T>) -> EditError {
        EditError::Memory
    }
}
