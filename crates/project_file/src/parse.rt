//! Project files, read whole.
ghost use Rattle.std.specs.Prelude.{MatchResult, ◌≡◌};
ghost use Rattle.project_file.specs.Projects.{IsProject};
ghost use Rattle.project_file.specs.Faults.{FirstFault, size};
ghost use Rattle.project_file.specs.View.{Why, project_view};

use crate::documents::document;
use crate::errors::ProjectError;
use crate::names::check_names;
use crate::projects::Project;
use crate::shape::contents_of;
use crate::units::project_of;
use std::alloc::Global;

/// The bytes that a project file may have, and each file of a project.
pub const LONGEST_FILE: usize = 16_777_216;

/// The error of a file that is too long, or want of memory.
pub fn oversized(alloc: Global, name: &str) -> ProjectError
    ensures { Why (λ fault. fault ≡ size name.now) ⊥ result }
{
    match String::from_str(alloc, name) {
        Ok(name) => ProjectError::Size(name),
        Err(_) => ProjectError::Memory,
    }
}

/// The project that a project file with this name says, or the first fault of the file. The file is TOML, of at most
/// 16,777,216 bytes. Its keys are `features`, `constraints` and `headers`, arrays of strings that may be absent, and `unit`, an
/// array of one or more tables with `file` and perhaps `when`. Features are new names of C, at most 128. No feature, and no
/// file, is named twice; a file is neither the project file nor `morpheus.proof`. Constraints and `when` are texts as
/// `feature_model::parse_constraint` reads them. No error is `Read`.
pub fn parse_project(alloc: Global, name: &str, bytes: &[u8]) -> Result<Project, ProjectError>
    ensures { MatchResult result
        (λ project. IsProject name.now bytes.now (project_view project))
        (Why (FirstFault name.now bytes.now) ⊥) }
{
    if bytes.len() > LONGEST_FILE {
        return Err(oversized(alloc, name));
    }
    let table = document(alloc, bytes)?;
    let contents = contents_of(alloc, name, &table)?;
    check_names(alloc, &contents)?;
    let project = project_of(alloc, name, contents)?;
    Ok(project)
}
