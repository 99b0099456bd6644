//! Laws of commands that refactor, the contracts of functions that do nothing.
ghost use Rattle.command_promises.specs.Commands.{IsDecidedCommand};
ghost use Rattle.project_refactorings.specs.Refactorings.{command_of};
ghost use Rattle.project_refactorings.specs.Lawful.{IsLawful, HasTasks};
ghost use Rattle.project_refactorings.specs.Laws.{RefactoringsConclude};

use file_outcomes::no_file_is_left_out;
use project_file::{first_fault_is_one, projects_are_alike, projects_have_no_fault};

/// A type that stands for a command that refactors, so that laws can speak of each such command.
pub trait Refactoring {
    ghost use Rattle.project_refactorings.specs.Refactorings.{RefactoringCommand};

    /// What it does.
    ghost command: { RefactoringCommand };
}

/// A command that refactors does one thing at most, if it is lawful.
pub fn refactorings_are_decided<R: Refactoring>()
    ensures { IsLawful R.command → IsDecidedCommand (command_of R.command) }
{
    projects_have_no_fault();
    first_fault_is_one();
    projects_are_alike();
}

/// It comes to something, whatever the files hold, if there is a task wherever something is found.
pub fn refactorings_conclude<R: Refactoring>()
    ensures { HasTasks R.command → RefactoringsConclude R.command }
{
    no_file_is_left_out();
}
