//! Names of what tokens bring along (ISO/IEC 9899:2011, 6.2.1 to 6.2.3, 6.2.7): the definitions (in `specs/`) and the law, the contract of a
//! function without a body of its own.
#![tactic(auto)]

ghost use Rattle.brought_names.specs.Laws.{BroughtAreNamedAlike};

use occurrence_names::{file_names_are_written, occurrences_keep_names};
use program_occurrences::{declarations_are_occurrences, units_of_programs_are_judged};

/// In a program that is judged well, what a token brings along is written as it is.
pub fn brought_are_named_alike()
    ensures { BroughtAreNamedAlike }
{
    declarations_are_occurrences();
    units_of_programs_are_judged();
    occurrences_keep_names();
    file_names_are_written();
}
