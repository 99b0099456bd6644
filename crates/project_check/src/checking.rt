//! The question of all products of a project.
ghost use Rattle.std.specs.Prelude.{◌≡◌, ◌<◌, ◌≤◌, List, Bool, length, map, All, IfOk};
ghost use Rattle.text_edits.specs.Files.{plain_files};
ghost use Rattle.cond_formula.specs.Features.{has};
ghost use Rattle.cond_formula.specs.Conditions.{condition_of, value, VarsBelow};
ghost use Rattle.core_meaning.specs.Program.{PlainProgram};
ghost use Rattle.feature_model.specs.ModelView.{admitted};
ghost use Rattle.project_file.specs.View.{project_view};
ghost use Rattle.project_store.specs.Reads.{names_of};
ghost use Rattle.project_program.specs.Programs.{IsProgram, IsRefusedAt};
ghost use Rattle.command_projects.specs.Least.{IsAdmitted};
ghost use Rattle.project_check.specs.Broken.{TellsProgram};
ghost use Rattle.project_check.specs.Checked.{IsChecked};

use crate::broken::where_broken;
use crate::outcomes::CheckOutcome;
use cond_formula::{Config, Formula, NoMemory};
use project_file::Project;
use project_program::{ProgramError, Stage, program, programs_are_one};
use project_questions::least_where;
use refuted_parts::without_refuted;
use std::alloc::{AllocError, Global};
use text_edits::Files;
use verdict_query::ModelOracle;

/// The stage that refuses a configuration without a program.
fn stage_at(alloc: Global, project: &Project, files: &Files, c: Config) -> Result<Stage, NoMemory>
    requires named { map (λ f. f.name) (plain_files files.now) ≡ names_of (project_view project.now) }
    requires short { All (λ f. length f.bytes ≤ 4294967295) (plain_files files.now) }
    requires few { length files.now.list.items < 4294967295 }
    requires broken { (p : PlainProgram) → IsProgram (project_view project.now) (plain_files files.now) (has c) p → ⊥ }
    ensures { IfOk result (IsRefusedAt (project_view project.now) (plain_files files.now) (has c)) }
{
    match program(alloc, project, files, c) {
        Ok(_) => unreachable!(),
        Err(ProgramError::NotAccepted(stage)) => Ok(stage),
        Err(ProgramError::Memory) => Err(AllocError),
    }
}

/// Where a project has no program.
fn where_products_broken(
    alloc: Global,
    project: &Project,
    files: &Files,
) -> Result<Formula, NoMemory>
    requires named { map (λ f. f.name) (plain_files files.now) ≡ names_of (project_view project.now) }
    requires short { All (λ f. length f.bytes ≤ 4294967295) (plain_files files.now) }
    requires few { length files.now.list.items < 4294967295 }
    ensures { IfOk result (λ f. (c : List Bool) → IsAdmitted (project_view project.now) c
        → TellsProgram (value (has c) (condition_of f)) (project_view project.now) (plain_files files.now) (has c)) }
{
    let mut oracle = ModelOracle::new(alloc, &project.model);
    let anywhere = where_broken(alloc, &mut oracle, project, files)?;
    let live = without_refuted(alloc, &mut oracle, &anywhere)?;
    Ok(live)
}

/// Whether all products of a project are accepted, or which is the least that isn't. `files` are the project's headers and then
/// its units.
pub fn check(alloc: Global, project: &Project, files: &Files) -> Result<CheckOutcome, NoMemory>
    requires named { map (λ f. f.name) (plain_files files.now) ≡ names_of (project_view project.now) }
    requires short { All (λ f. length f.bytes ≤ 4294967295) (plain_files files.now) }
    requires few { length files.now.list.items < 4294967295 }
    requires features { length project.now.features.items ≤ 128 }
    requires below { VarsBelow (length project.now.features.items) (admitted project.now.model) }
    ensures { IfOk result (IsChecked (project_view project.now) (plain_files files.now)) }
{
    programs_are_one();
    let broken = where_products_broken(alloc, project, files)?;
    match least_where(alloc, project, &broken)? {
        None => Ok(CheckOutcome::Accepted),
        Some(c) => {
            let stage = stage_at(alloc, project, files, c)?;
            Ok(CheckOutcome::Broken(c, stage))
        }
    }
}
