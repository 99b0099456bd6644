//! Why units give no core program.
ghost use Rattle.std.specs.Prelude.{◌≡◌, true, false, MatchResult};
ghost use Rattle.c_text.specs.Token.{plain_token};
ghost use Rattle.plain_scope.specs.Judgements.{Refuses};
ghost use Rattle.plain_scope.specs.declared.errors.ElabError.TheVariants.{Memory};

use c_text::{FileToken, Token};
use core_meaning::{LinkKind, TypeKind};
use std::alloc::{AllocError, AllocFailed};

/// The first refusal of units, or want of memory.
#[derive(Debug, Drop)]
pub enum ElabError {
    /// A unit doesn't type, at this token.
    BadType(TypeKind, FileToken),
    /// The units don't link, by this name.
    Link(LinkKind, Vec<u8>),
    Memory,
}

impl From<AllocError> for ElabError {
    ghost from_gives = { λ _ error. error ≡ Memory };

    fn from(_: AllocError) -> ElabError {
        ElabError::Memory
    }
}

impl<T: Drop> From<AllocFailed<T>> for ElabError {
    ghost from_gives = { λ _ error. error ≡ Memory };

    fn from(_: AllocFailed<T>) -> ElabError {
        ElabError::Memory
    }
}

/// The refusal of a token.
pub fn refused(kind: TypeKind, token: &Token) -> ElabError
    ensures { Refuses kind (plain_token token.now) result }
{
    ElabError::BadType(
        kind,
        FileToken {
            file: token.origin.file,
            span: token.origin.span,
        },
    )
}

/// Refuses the token where the test fails.
pub fn unless(holds: bool, kind: TypeKind, token: &Token) -> Result<(), ElabError>
    ensures { MatchResult result (λ _. holds ≡ true) (λ error. (holds ≡ false) × Refuses kind (plain_token token.now) error) }
{
    if holds {
        Ok(())
    } else {
        Err(refused(kind, token))
    }
}
