//! Laws on the course of `check`, the contracts of functions that do nothing.
ghost use Rattle.command_promises.specs.Commands.{IsDecidedCommand};
ghost use Rattle.command_check.specs.Check as spec;
ghost use Rattle.command_check.specs.Laws.{CheckConcludes};

use file_outcomes::no_file_is_left_out;
use product_outcomes::no_product_is_left_out;
use project_file::{first_fault_is_one, projects_are_alike, projects_have_no_fault};
use project_program::programs_are_one;

/// The words ask for one project at most, and one thing is done then.
pub fn check_is_decided()
    ensures { IsDecidedCommand spec.check }
{
    projects_have_no_fault();
    first_fault_is_one();
    projects_are_alike();
    programs_are_one();
}

/// A check of a project comes to something, whatever its files hold.
pub fn check_concludes()
    ensures { CheckConcludes }
{
    no_file_is_left_out();
    no_product_is_left_out();
    programs_are_one();
}
