//! Why a project isn't had.
ghost use Rattle.std.specs.Prelude.{◌≡◌};
ghost use Rattle.project_file.specs.declared.errors.ProjectError.TheVariants.{Memory};

use std::alloc::{AllocError, AllocFailed};
use thiserror::Error;

/// Why a project isn't had. All but `Read` and `Memory` are faults of the project file.
#[derive(Debug, Drop, Error)]
pub enum ProjectError {
    /// The file isn't TOML.
    #[error("not toml")]
    NotToml,
    /// A key of the file that isn't known, or doesn't hold what it must.
    #[error("shape {0}")]
    Shape(String),
    /// A name that no feature may have.
    #[error("feature {0}")]
    Feature(String),
    /// The place, from 1, of a text that is no constraint over the features: constraints first, then the conditions of the
    /// units, absent ones counted too.
    #[error("constraint {0}")]
    Constraint(u32),
    /// A feature or a file that is named twice.
    #[error("duplicate {0}")]
    Duplicate(String),
    /// A file that is too long.
    #[error("size {0}")]
    Size(String),
    /// A file wasn't read.
    #[error("read fault")]
    Read,
    /// Want of memory.
    #[error("want of memory")]
    Memory,
}

impl From<AllocError> for ProjectError {
    ghost from_gives = { λ _ error. error ≡ Memory };

    fn from(_error: AllocError) -> ProjectError {
        ProjectError::Memory
    }
}

impl<T: Drop> From<AllocFailed<T>> for ProjectError {
    ghost from_gives = { λ _ error. error ≡ Memory };

    fn from(_error: AllocFailed<T>) -> ProjectError {
        ProjectError::Memory
    }
}
