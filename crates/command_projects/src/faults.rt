ghost use Rattle.std.specs.Prelude.{◌≡◌, ◌∷◌, ◌++◌, IfOk};
ghost use Rattle.project_file.specs.Faults as fault;
ghost use Rattle.command_promises.specs.Sayings.{saying};
ghost use Rattle.command_projects.specs.Faults.{bad_project, of_text, IsSaidOrStops, Refuses};

use command_promises::{Said, Stop};
use project_file::ProjectError;
use std::alloc::{AllocError, Global};

/// The status where the project has a fault.
const BAD_PROJECT: u8 = 5;

fn not_toml(alloc: Global) -> Result<Said, AllocError>
    ensures { IfOk result (λ said. saying said ≡ bad_project fault.not_toml) }
{
    let said = Said::tells(alloc, BAD_PROJECT, "bad project: not toml\n")?;
    Ok(said)
}

fn named(alloc: Global, kind: &str, name: &str) -> Result<Said, AllocError>
    ensures { IfOk result (λ said. saying said ≡ of_text (kind.now ++ 32 ∷ name.now)) }
{
    let text = format!(in alloc; "bad project: {kind} {name}\n")?;
    let said = Said::tells(alloc, BAD_PROJECT, text.as_str())?;
    Ok(said)
}

fn placed(alloc: Global, place: u32) -> Result<Said, AllocError>
    ensures { IfOk result (λ said. saying said ≡ bad_project (fault.constraint place)) }
{
    let text = format!(in alloc; "bad project: constraint {place}\n")?;
    let said = Said::tells(alloc, BAD_PROJECT, text.as_str())?;
    Ok(said)
}

/// The fault, if there was memory to say it.
fn or_stop(said: Result<Said, AllocError>) -> Result<Said, Stop>
    ensures { IsSaidOrStops said result }
{
    match said {
        Ok(said) => Ok(said),
        Err(_) => Err(Stop::WantOfMemory),
    }
}

/// What is said where there is no project, or a file of it is too long: its fault; or why a file wasn't read.
pub fn without_project(alloc: Global, error: ProjectError) -> Result<Said, Stop>
    ensures { Refuses error result }
{
    match error {
        ProjectError::Read => Err(Stop::ReadFault),
        ProjectError::Memory => Err(Stop::WantOfMemory),
        ProjectError::NotToml => or_stop(not_toml(alloc)),
        ProjectError::Shape(key) => or_stop(named(alloc, "shape", key.as_str())),
        ProjectError::Feature(name) => or_stop(named(alloc, "feature", name.as_str())),
        ProjectError::Duplicate(name) => or_stop(named(alloc, "duplicate", name.as_str())),
        ProjectError::Constraint(place) => or_stop(placed(alloc, place)),
        ProjectError::Size(name) => or_stop(named(alloc, "size", name.as_str())),
    }
}
