ghost use Rattle.std.specs.Prelude.{◌≡◌, ◌≤◌, length, map, All, IfOk, IsErrOf};
ghost use Rattle.std.specs.String.{string_bytes};
ghost use Rattle.text_edits.specs.Files.{plain_files};
ghost use Rattle.cond_formula.specs.Features.{has};
ghost use Rattle.cond_formula.specs.Conditions.{VarsBelow};
ghost use Rattle.feature_model.specs.ModelView.{admitted};
ghost use Rattle.project_file.specs.Projects.{names_on};
ghost use Rattle.project_file.specs.View.{project_view};
ghost use Rattle.project_store.specs.Faults.{HasCause};
ghost use Rattle.project_store.specs.States.{IsReadAlone};
ghost use Rattle.project_store.specs.Reads.{names_of};
ghost use Rattle.command_promises.specs.Sayings.{saying, SaysOrEnds, CameTo};
ghost use Rattle.command_promises.specs.Commands.{CourseFor};
ghost use Rattle.command_check.specs.Check as spec;

use command_projects::{asked_project, listed, names_on, without_project};
use command_promises::{Said, Stop, usage};
use cond_formula::Config;
use project_check::CheckOutcome;
use project_program::Stage;
use project_store::{Project, Store, read_files, read_project};
use std::alloc::{AllocError, Global};
use text_edits::Files;

/// The stage refuses the configuration.
fn broken(alloc: Global, project: &Project, c: Config, stage: Stage) -> Result<Said, AllocError>
    requires few { length project.now.features.items ≤ 128 }
    ensures { IfOk result (λ said. saying said ≡ spec.broken stage (names_on (has c) (project_view project.now).features)) }
{
    let names = names_on(alloc, &project.features, c)?;
    let names = listed(alloc, &names)?;
    let stage = stage.name();
    let text = format!(in alloc; "broken {stage} at {names}\n")?;
    let said = Said::tells(alloc, 1, text.as_str())?;
    Ok(said)
}

/// What is said of the products.
fn of_outcome(alloc: Global, project: &Project, outcome: CheckOutcome) -> Result<Said, AllocError>
    requires few { length project.now.features.items ≤ 128 }
    ensures { IfOk result (λ said. saying said ≡ spec.said_of (project_view project.now).features outcome) }
{
    match outcome {
        CheckOutcome::Accepted => {
            let said = Said::tells(alloc, 0, "accepted\n")?;
            Ok(said)
        }
        CheckOutcome::Broken(c, stage) => {
            let said = broken(alloc, project, c, stage)?;
            Ok(said)
        }
    }
}

/// Checks the products of the project whose files are read.
fn of_products(alloc: Global, project: &Project, files: &Files) -> Result<Said, Stop>
    requires few { length project.now.features.items ≤ 128 }
    requires below { VarsBelow (length project.now.features.items) (admitted project.now.model) }
    requires named { map (λ f. f.name) (plain_files files.now) ≡ names_of (project_view project.now) }
    requires short { All (λ f. length f.bytes ≤ 4294967295) (plain_files files.now) }
    ensures { SaysOrEnds (spec.OfProducts (project_view project.now) (plain_files files.now)) result }
{
    // Numbers of files have 32 bits, of which the built-in one is the last.
    if files.list.len() >= u32::MAX as usize {
        return Err(Stop::WantOfMemory);
    }
    let outcome = project_check::check(alloc, project, files)?;
    let said = of_outcome(alloc, project, outcome)?;
    Ok(said)
}

/// Reads the project's files, and checks its products.
fn in_project<S: Store>(alloc: Global, project: &Project, store: &mut S) -> Result<Said, Stop>
    requires few { length project.now.features.items ≤ 128 }
    requires below { VarsBelow (length project.now.features.items) (admitted project.now.model) }
    ensures came { CameTo (spec.OfProject (project_view project.now)) (S.state store.old) result }
    ensures cause { HasCause (S.state store.old).exact (S.state store.old).read_faults (S.state store.new).read_faults (IsErrOf result Stop.ReadFault) }
    ensures kept { IsReadAlone (S.state store.old) (S.state store.new) }
{
    match read_files(alloc, store, project) {
        Ok(files) => of_products(alloc, project, &files),
        Err(error) => without_project(alloc, error),
    }
}

/// Reads the project and its files, and checks its products.
fn of_file<S: Store>(alloc: Global, name: &str, store: &mut S) -> Result<Said, Stop>
    ensures came { CameTo (spec.Does name.now) (S.state store.old) result }
    ensures cause { HasCause (S.state store.old).exact (S.state store.old).read_faults (S.state store.new).read_faults (IsErrOf result Stop.ReadFault) }
    ensures kept { IsReadAlone (S.state store.old) (S.state store.new) }
{
    match read_project(alloc, store, name) {
        Ok(project) => in_project(alloc, &project, store),
        Err(error) => without_project(alloc, error),
    }
}

/// Carries out `check` with its further words: reads the project and its files, and says whether all its products are accepted, or
/// the least that isn't and the stage that refuses it.
pub fn check<S: Store>(alloc: Global, words: &[String], store: &mut S) -> Result<Said, Stop>
    ensures came { CameTo (CourseFor spec.check (map string_bytes words.now)) (S.state store.old) result }
    ensures cause { HasCause (S.state store.old).exact (S.state store.old).read_faults (S.state store.new).read_faults (IsErrOf result Stop.ReadFault) }
    ensures kept { IsReadAlone (S.state store.old) (S.state store.new) }
{
    match asked_project(words) {
        Some(name) => of_file(alloc, name, store),
        None => {
            let said = usage(alloc)?;
            Ok(said)
        }
    }
}
