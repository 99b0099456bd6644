//! The command `quick FILE OLD NEW OUT`: one name made another in one file of the quick form.
#![tactic(auto)]

ghost use Rattle.command_promises.specs.Commands.{IsDecidedCommand};
ghost use Rattle.command_quick.specs.Quick as spec;

mod renaming;
mod words;

use quick_form::{places_are_one, taken_has_no_place};
pub use renaming::quick;

/// The words ask for one renaming at most, and one thing is done then.
pub fn quick_is_decided()
    ensures { IsDecidedCommand spec.quick }
{
    places_are_one();
    taken_has_no_place();
}
