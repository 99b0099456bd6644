ghost use Rattle.std.specs.Prelude.{◌≡◌, IsErrOf, MatchResult};
ghost use Rattle.project_file.specs.View.{Why, project_view};
ghost use Rattle.project_store.specs.Faults.{HasCause};
ghost use Rattle.project_store.specs.States.{IsReadAlone, IsAbsent};
ghost use Rattle.project_store.specs.Reads.{HasFault, unread};
ghost use Rattle.project_texts.specs.Texts.{IsProjectText};

use project_file::parse_project;
use project_store::{Project, ProjectError, Store, StoreFault};
use std::alloc::Global;

/// A project, and what its file holds.
#[derive(Drop)]
pub struct ProjectText {
    pub project: Project,
    pub bytes: Vec<u8>,
}

/// Why a read gave nothing.
fn unread(fault: StoreFault) -> ProjectError
    ensures { result ≡ unread fault }
{
    match fault {
        StoreFault::Failed => ProjectError::Read,
        StoreFault::Memory => ProjectError::Memory,
    }
}

/// The bytes of the file with the name, and the project that they say; or the first fault of the file. `Read` comes only where the count
/// of read faults rose.
pub fn read_project_text<S: Store>(
    alloc: Global,
    store: &mut S,
    name: &str,
) -> Result<ProjectText, ProjectError>
    ensures text { MatchResult result
        (λ text. IsProjectText (S.state store.old) name.now text.bytes.items (project_view text.project))
        (Why (HasFault (S.state store.old) name.now) (IsAbsent (S.state store.old) name.now)) }
    ensures cause { HasCause (S.state store.old).exact (S.state store.old).read_faults (S.state store.new).read_faults (IsErrOf result ProjectError.Read) }
    ensures kept { IsReadAlone (S.state store.old) (S.state store.new) }
{
    match store.read(alloc, name) {
        Ok(bytes) => {
            let project = parse_project(alloc, name, &bytes)?;
            Ok(ProjectText { project, bytes })
        }
        Err(fault) => Err(unread(fault)),
    }
}
