ghost use Rattle.std.specs.Prelude.{◌≡◌, ◌≤◌, length, map, IfOk, IsErrOf, MatchOption};
ghost use Rattle.std.specs.String.{string_bytes};
ghost use Rattle.cond_formula.specs.Features.{has};
ghost use Rattle.cond_formula.specs.Conditions.{Condition, VarsBelow};
ghost use Rattle.sat_core.specs.Models.{IsLeastModel, HasNoModel};
ghost use Rattle.verdict_query.specs.Verdicts.{where_admitted, IsVerdict};
ghost use Rattle.feature_model.specs.ModelView.{admitted};
ghost use Rattle.project_file.specs.Projects.{names_on};
ghost use Rattle.project_file.specs.View.{project_view};
ghost use Rattle.project_store.specs.Faults.{HasCause};
ghost use Rattle.project_store.specs.States.{IsReadAlone};
ghost use Rattle.command_promises.specs.Sayings.{saying, SaysOrEnds, CameTo};
ghost use Rattle.command_promises.specs.Commands.{CourseFor};
ghost use Rattle.command_admit.specs.Admit as spec;

use command_projects::{asked_project, listed, names_on, without_project};
use command_promises::{Said, Stop, usage};
use cond_formula::{Config, Formula};
use project_store::{Project, Store, read_project};
use std::alloc::{AllocError, Global};
use verdict_query::{Verdict, ask, equal_conditions_have_one_least_model, fewer_features_suffice};

/// The configuration is the least.
fn admits(alloc: Global, project: &Project, c: Config) -> Result<Said, AllocError>
    requires few { length project.now.features.items ≤ 128 }
    ensures { IfOk result (λ said. saying said ≡ spec.admits (names_on (has c) (project_view project.now).features)) }
{
    let names = names_on(alloc, &project.features, c)?;
    let names = listed(alloc, &names)?;
    let text = format!(in alloc; "admits {names}\n")?;
    let said = Said::tells(alloc, 0, text.as_str())?;
    Ok(said)
}

/// The configuration that is answered, if there is one.
fn configuration_of(verdict: Verdict) -> Result<Option<Config>, AllocError>
    ensures { (admitted condition : Condition) → IsVerdict admitted condition verdict
        → IfOk result (λ found. MatchOption found (HasNoModel (where_admitted admitted condition)) (IsLeastModel 128 (where_admitted admitted condition))) }
{
    match verdict {
        Verdict::Least(c) => Ok(Some(c)),
        Verdict::Never(_) => Ok(None),
        Verdict::Memory => Err(AllocError),
    }
}

/// The least configuration that the project admits, if it admits one.
fn least_admitted(alloc: Global, project: &Project) -> Result<Option<Config>, AllocError>
    requires few { length project.now.features.items ≤ 128 }
    requires below { VarsBelow (length project.now.features.items) (admitted project.now.model) }
    ensures { IfOk result (λ found. MatchOption found (HasNoModel (admitted project.now.model)) (IsLeastModel (length project.now.features.items) (admitted project.now.model))) }
{
    fewer_features_suffice();
    equal_conditions_have_one_least_model();
    let verdict = ask(alloc, &project.model, &Formula::True);
    let found = configuration_of(verdict)?;
    Ok(found)
}

/// Says the least configuration that the project admits.
fn least_of(alloc: Global, project: &Project) -> Result<Said, Stop>
    requires few { length project.now.features.items ≤ 128 }
    requires below { VarsBelow (length project.now.features.items) (admitted project.now.model) }
    ensures { SaysOrEnds (spec.OfProject (project_view project.now)) result }
{
    match least_admitted(alloc, project)? {
        Some(c) => {
            let said = admits(alloc, project, c)?;
            Ok(said)
        }
        None => {
            let said = Said::tells(alloc, 0, "admits nothing\n")?;
            Ok(said)
        }
    }
}

/// Reads the project, and finds the least configuration that it admits.
fn of_file<S: Store>(alloc: Global, name: &str, store: &mut S) -> Result<Said, Stop>
    ensures came { CameTo (spec.Does name.now) (S.state store.old) result }
    ensures cause { HasCause (S.state store.old).exact (S.state store.old).read_faults (S.state store.new).read_faults (IsErrOf result Stop.ReadFault) }
    ensures kept { IsReadAlone (S.state store.old) (S.state store.new) }
{
    match read_project(alloc, store, name) {
        Ok(project) => least_of(alloc, &project),
        Err(error) => without_project(alloc, error),
    }
}

/// Carries out `admit` with its further words: reads the project, and finds the least configuration that it admits.
pub fn admit<S: Store>(alloc: Global, words: &[String], store: &mut S) -> Result<Said, Stop>
    ensures came { CameTo (CourseFor spec.admit (map string_bytes words.now)) (S.state store.old) result }
    ensures cause { HasCause (S.state store.old).exact (S.state store.old).read_faults (S.state store.new).read_faults (IsErrOf result Stop.ReadFault) }
    ensures kept { IsReadAlone (S.state store.old) (S.state store.new) }
{
    match asked_project(words) {
        Some(name) => of_file(alloc, name, store),
        None => {
            let said = usage(alloc)?;
            Ok(said)
        }
    }
}
