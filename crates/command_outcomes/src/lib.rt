//! Whether commands come to anything: laws on the courses of `quick`, `admit` and `tokens`, the contracts of functions without a body.
#![tactic(auto)]

ghost use Rattle.command_outcomes.specs.Laws.{AdmitConcludes, QuickConcludes, TokensConclude};

use file_outcomes::no_file_is_left_out;
use quick_form::placed_symbols_are_spelled;
use quick_rename::taking_is_decided;
use unit_outcomes::units_have_outcomes;

/// A renaming comes to something, whatever its file holds.
pub fn quick_concludes()
    ensures { QuickConcludes }
{
    placed_symbols_are_spelled();
    taking_is_decided();
}

/// So does the search for the least configuration of a project.
pub fn admit_concludes()
    ensures { AdmitConcludes }
{
    no_file_is_left_out();
}

/// And so does the preprocessing of a unit.
pub fn tokens_conclude()
    ensures { TokensConclude }
{
    no_file_is_left_out();
    units_have_outcomes();
}
