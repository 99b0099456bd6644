//! The command `admit PROJECT`: the least configuration that a project admits.
#![tactic(auto)]

ghost use Rattle.command_promises.specs.Commands.{IsDecidedCommand};
ghost use Rattle.command_admit.specs.Admit as spec;

mod least;

pub use least::admit;
use project_file::{first_fault_is_one, projects_are_alike, projects_have_no_fault};

/// The words ask for one project at most, and one thing is done then.
pub fn admit_is_decided()
    ensures { IsDecidedCommand spec.admit }
{
    projects_have_no_fault();
    first_fault_is_one();
    projects_are_alike();
}
