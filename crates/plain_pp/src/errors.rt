//! Why a unit isn't preprocessed.
ghost use Rattle.std.specs.Prelude.{◌≡◌, MatchResult, Some, None};
ghost use Rattle.std.specs.Option.{option_map};
ghost use Rattle.unit_files.specs.Refusals.{plain_refusal};
ghost use Rattle.plain_pp.specs.declared.errors.PpError.TheVariants.{Refused, Memory};
ghost use Rattle.plain_pp.specs.Results.{Says};

use c_text::FileToken;
use std::alloc::{AllocError, AllocFailed};
use thiserror::Error;
use unit_files::{PpKind, Refusal};

/// Why a unit isn't preprocessed.
#[derive(Debug, Drop, Error)]
pub enum PpError {
    /// The first refusal, and the token at which it stands.
    #[error("{0:?} at {1:?}")]
    Refused(PpKind, FileToken),
    /// Want of memory.
    #[error("want of memory")]
    Memory,
}

impl From<AllocError> for PpError {
    ghost from_gives = { λ _ error. error ≡ Memory };

    fn from(_error: AllocError) -> PpError {
        PpError::Memory
    }
}

impl<T: Drop> From<AllocFailed<T>> for PpError {
    ghost from_gives = { λ _ error. error ≡ Memory };

    fn from(_error: AllocFailed<T>) -> PpError {
        PpError::Memory
    }
}

/// A refusal as an error.
pub fn error_of(refusal: Refusal) -> PpError
    ensures { result ≡ Refused refusal.kind refusal.at }
{
    PpError::Refused(refusal.kind, refusal.at)
}

/// Nothing is refused, or this.
pub fn check(found: Option<Refusal>) -> Result<(), PpError>
    ensures { MatchResult result (λ _. option_map plain_refusal found ≡ None) (λ e. Says e (λ why. option_map plain_refusal found ≡ Some why)) }
{
    match found {
        Some(refusal) => Err(error_of(refusal)),
        None => Ok(()),
    }
}
