//! Questions about the configurations that a project admits: the least in which a formula is true, or a proof that there is none.
#![tactic(auto)]

ghost use Rattle.std.specs.Prelude.{◌≤◌, length, IfOk, MatchOption};
ghost use Rattle.cond_formula.specs.Conditions.{condition_of, Condition, VarsBelow};
ghost use Rattle.feature_model.specs.ModelView.{admitted};
ghost use Rattle.verdict_query.specs.Verdicts.{IsVerdict};
ghost use Rattle.project_file.specs.Projects.{PlainProject};
ghost use Rattle.project_file.specs.View.{project_view};
ghost use Rattle.command_projects.specs.Least.{Nowhere, IsLeast};
ghost use Rattle.project_questions.specs.Steps.{IsVerdictFound};
ghost use Rattle.project_questions.specs.Questions.{IsTrueIn, IsFound};

use cond_formula::{Config, Formula, NoMemory};
use feature_ranges::within_features;
use project_file::Project;
use sat_core::Proof;
use std::alloc::{AllocError, Global};
use verdict_query::{Verdict, ask, fewer_features_suffice};

/// What is found of the configurations in which a formula is true.
#[derive(Drop)]
pub enum Finding {
    /// The least of them.
    Least(Config),
    /// That there is none: a refutation of the question.
    Never(Proof),
}

/// What a verdict says, if memory didn't end.
fn finding_of(verdict: Verdict) -> Result<Finding, NoMemory>
    ensures { (admitted condition : Condition) → IsVerdict admitted condition verdict → IfOk result (IsVerdictFound admitted condition) }
{
    match verdict {
        Verdict::Least(c) => Ok(Finding::Least(c)),
        Verdict::Never(proof) => Ok(Finding::Never(proof)),
        Verdict::Memory => Err(AllocError),
    }
}

/// The least configuration that the project admits and in which the formula is true, or a proof that there is none. Features that the formula
/// names and the project doesn't have are off.
pub fn find_least(alloc: Global, project: &Project, f: &Formula) -> Result<Finding, NoMemory>
    requires few { length project.now.features.items ≤ 128 }
    requires below { VarsBelow (length project.now.features.items) (admitted project.now.model) }
    ensures { IfOk result (IsFound (project_view project.now) (IsTrueIn (condition_of f.now))) }
{
    fewer_features_suffice();
    let within = within_features(alloc, f, project.features.len())?;
    let verdict = ask(alloc, &project.model, &within);
    let found = finding_of(verdict)?;
    Ok(found)
}

/// The configuration that is found, if there is one.
fn configuration_of(found: &Finding) -> Option<Config>
    ensures { (project : PlainProject) (condition : Condition) → IsFound project (IsTrueIn condition) found.now
        → MatchOption result (Nowhere project (IsTrueIn condition)) (IsLeast project (IsTrueIn condition)) }
{
    match found {
        Finding::Least(c) => Some(*c),
        Finding::Never(_) => None,
    }
}

/// The same configuration, if there is one.
pub fn least_where(
    alloc: Global,
    project: &Project,
    f: &Formula,
) -> Result<Option<Config>, NoMemory>
    requires few { length project.now.features.items ≤ 128 }
    requires below { VarsBelow (length project.now.features.items) (admitted project.now.model) }
    ensures { IfOk result (λ found. MatchOption found
        (Nowhere (project_view project.now) (IsTrueIn (condition_of f.now))) (IsLeast (project_view project.now) (IsTrueIn (condition_of f.now)))) }
{
    let found = find_least(alloc, project, f)?;
    Ok(configuration_of(&found))
}
