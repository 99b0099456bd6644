//! Names of occurrences (ISO/IEC 9899:2011, 6.2.1 to 6.2.3): the definitions (in `specs/`) and the laws, each the contract of a function
//! without a body of its own.
#![tactic(auto)]

ghost use Rattle.occurrence_names.specs.Laws.{OccurrencesKeepNames, FileNamesAreWritten};

use bound_names::identifiers_keep_names;
use bound_slots::slots_are_of_functions;
use program_occurrences::{
    declarations_are_occurrences, identifiers_are_bound, occurrences_are_bound,
};

/// In a unit that is judged well, each occurrence has the name of what declares it.
pub fn occurrences_keep_names()
    ensures { OccurrencesKeepNames }
{
    declarations_are_occurrences();
    identifiers_are_bound();
    occurrences_are_bound();
    identifiers_keep_names();
    slots_are_of_functions();
}

/// In a unit that is judged well, each identifier that stands for a name of file scope is written as this name.
pub fn file_names_are_written()
    ensures { FileNamesAreWritten }
{
    tree_derivations::units_are_derived();
    identifiers_are_bound();
    occurrences_keep_names();
}
