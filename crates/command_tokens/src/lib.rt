//! The command `tokens PROJECT UNIT NAMES`: the tokens of a unit in one configuration.
#![tactic(auto)]

ghost use Rattle.command_promises.specs.Commands.{IsDecidedCommand};
ghost use Rattle.command_tokens.specs.Tokens as spec;

mod unit;
mod words;

use plain_pp::outcomes_are_one;
use project_file::{first_fault_is_one, projects_are_alike, projects_have_no_fault};
pub use unit::tokens;

/// The words ask for one unit and configuration at most, and one thing is done then.
pub fn tokens_are_decided()
    ensures { IsDecidedCommand spec.tokens }
{
    projects_have_no_fault();
    first_fault_is_one();
    projects_are_alike();
    outcomes_are_one();
}
