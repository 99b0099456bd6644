//! Reference classes.
ghost use Rattle.std.specs.Prelude.{◌≤◌, List, length, IfOk};
ghost use Rattle.text_edits.specs.Files.{PlainFile};
ghost use Rattle.project_file.specs.View.{project_view};
ghost use Rattle.tied_tokens.specs.Tokens.{plain_file_token};
ghost use Rattle.tied_tokens.specs.Ties.{NamesFeaturesBelow};
ghost use Rattle.tied_classes.specs.Told.{TellsProducts};
ghost use Rattle.project_ties.specs.Projects.{tied_tokens_of};
ghost use Rattle.project_classes.specs.Answers.{IsAnswer};

use c_text::FileToken;
use cond_formula::NoMemory;
use project_file::Project;
use project_ties::ProjectTies;
use std::alloc::Global;
use tied_classes::{occurrences_are_told, reached_are_class};
use tied_tokens::{class_of_ties, occurs_somewhere};

/// What there is to rename at a token of a file.
#[derive(Debug, Drop)]
pub enum ClassAnswer {
    /// All tokens that mean what it means, in whichever product they are read.
    Class(Vec<FileToken>),
    /// No product has an occurrence there.
    Nothing,
}

/// The reference class of a token, by the ties of a project that tell its products.
pub fn class_of(
    alloc: Global,
    project: &Project,
    ties: &ProjectTies,
    at: &FileToken,
) -> Result<ClassAnswer, NoMemory>
    requires few { length project.now.features.items ≤ 128 }
    requires below { NamesFeaturesBelow (length project.now.features.items) (tied_tokens_of project.now ties.now) }
    ensures { IfOk result (λ answer. (files : List PlainFile) → TellsProducts (project_view project.now) files (tied_tokens_of project.now ties.now)
        → IsAnswer (project_view project.now) files (plain_file_token at.now) answer) }
{
    occurrences_are_told();
    reached_are_class();
    let all = ties.tied_tokens(project);
    if !occurs_somewhere(alloc, &all, at)? {
        return Ok(ClassAnswer::Nothing);
    }
    let class = class_of_ties(alloc, &all, at)?;
    Ok(ClassAnswer::Class(class))
}
