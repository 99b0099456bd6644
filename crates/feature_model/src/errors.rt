//! Why constraints make no model.
ghost use Rattle.std.specs.Prelude.{◌≡◌};
ghost use Rattle.feature_model.specs.declared.errors.ModelError.TheVariants.{Memory};

use std::alloc::{AllocError, AllocFailed};
use thiserror::Error;

/// Why constraints make no model. The numbers are places in the list of the constraints, from 1.
#[derive(Clone, Copy, Debug, PartialEq, Eq, Error)]
pub enum ModelError {
    /// The text isn't of the form of a constraint.
    #[error("constraint {0} isn't of the form")]
    Syntax(u32),
    /// A name in the constraint is that of no feature.
    #[error("constraint {0} names an unknown feature")]
    UnknownFeature(u32),
    /// There are more than 128 features.
    #[error("more than 128 features")]
    TooMany,
    /// Want of memory.
    #[error("want of memory")]
    Memory,
}

impl From<AllocError> for ModelError {
    ghost from_gives = { λ _ error. error ≡ Memory };

    fn from(_error: AllocError) -> ModelError {
        ModelError::Memory
    }
}

impl<T: Drop> From<AllocFailed<T>> for ModelError {
    ghost from_gives = { λ _ error. error ≡ Memory };

    fn from(_error: AllocFailed<T>) -> ModelError {
        ModelError::Memory
    }
}
