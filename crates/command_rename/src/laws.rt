//! Laws on the course of `rename`, the contracts of functions that do nothing.
ghost use Rattle.command_promises.specs.Commands.{IsDecidedCommand};
ghost use Rattle.command_rename.specs.Rename as spec;
ghost use Rattle.command_rename.specs.Laws.{RenameConcludes, RenamingsThatAreWrittenKeepProducts};

use alike_classes::{classes_are_alike, named_classes_are_alike, preconditions_are_alike};
use class_edits::{listed_classes_are_renamed, listed_stand_apart};
use kept_products::renamings_keep_products;
use named_classes::{found_are_named, named_classes_are_one};
use project_file::projects_are_alike;
use project_refactorings::{Refactoring, refactorings_are_decided, refactorings_conclude};
use project_sizes::projects_have_few_files;
use rename_words::{asks_are_one, fits_are_alike, fits_are_one};
use renamed_classes::{classes_fit_files, classes_stand_on_text_lines};
use untouched_classes::untouched_classes_keep_outcomes;

/// The command that the laws of commands which refactor are asked of.
struct Renaming;

impl Refactoring for Renaming {
    ghost use Rattle.command_rename.specs.Rename.{renaming};

    ghost command = { renaming };
}

/// The words ask for one renaming at most, and one thing is done then.
pub fn rename_is_decided()
    ensures { IsDecidedCommand spec.rename }
{
    refactorings_are_decided::<Renaming>();
    asks_are_one();
    fits_are_one();
    fits_are_alike();
    named_classes_are_one();
    named_classes_are_alike();
    preconditions_are_alike();
}

/// A renaming comes to something, whatever the files hold.
pub fn rename_concludes()
    ensures { RenameConcludes }
{
    refactorings_conclude::<Renaming>();
    found_are_named();
    projects_have_few_files();
}

/// What is written where `rename` answers 0 keeps the products of the project that was read.
pub fn renamings_that_are_written_keep_products()
    ensures { RenamingsThatAreWrittenKeepProducts }
{
    projects_are_alike();
    projects_have_few_files();
    fits_are_alike();
    classes_are_alike();
    preconditions_are_alike();
    classes_stand_on_text_lines();
    listed_stand_apart();
    listed_classes_are_renamed();
    classes_fit_files();
    renamings_keep_products();
    untouched_classes_keep_outcomes();
}
