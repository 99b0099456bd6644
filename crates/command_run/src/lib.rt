//! The command `run PROJECT NAMES BOUND INPUT`: the run of one product.
#![tactic(auto)]

ghost use Rattle.command_promises.specs.Commands.{IsDecidedCommand};
ghost use Rattle.command_run.specs.Run as spec;

mod product;
mod words;

pub use product::run;
use project_file::{first_fault_is_one, projects_are_alike, projects_have_no_fault};
use project_program::programs_are_one;

/// The words ask for one run at most, and one thing is done then.
pub fn run_is_decided()
    ensures { IsDecidedCommand spec.run }
{
    projects_have_no_fault();
    first_fault_is_one();
    projects_are_alike();
    programs_are_one();
}
