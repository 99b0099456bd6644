//! Laws of what readers note of a unit. Each function is its contract, and leans on how a unit is read, judged and bound.
ghost use Rattle.read_occurrences.specs.Laws.{PairsAreRead, NamesAreRead, OccurrencesAreRead};

use bindings::judgements_bind_alike;
use bound_slots::{sizes_bind_nothing, slots_are_of_functions};
use entity_numbers::units_name_parameters;
use name_spaces::{bindings_tell_declarations, spaces_tell_names};
use occurrence_names::occurrences_keep_names;
use program_occurrences::{
    declarations_are_occurrences, identifiers_are_bound, occurrences_are_bound,
};
use scope_readings::scopes_are_read;
use tree_derivations::units_are_derived;
use unit_numbers::uses_are_bound_before;

/// Where a unit is judged well, its occurrences are the pairs that its bindings tell, and those of the uses of its members with the one name
/// that declares each, by the tag of its struct and by its own name.
pub fn pairs_are_read()
    ensures { PairsAreRead }
{
    units_are_derived();
    units_name_parameters();
    sizes_bind_nothing();
    slots_are_of_functions();
    judgements_bind_alike();
    scopes_are_read();
    identifiers_are_bound();
    occurrences_are_bound();
    declarations_are_occurrences();
    uses_are_bound_before();
    occurrences_keep_names();
    spaces_tell_names();
    bindings_tell_declarations();
}

/// There a name that is paired with itself declares the name in common that its name space tells.
pub fn names_are_read()
    ensures { NamesAreRead }
{
    units_are_derived();
    units_name_parameters();
    sizes_bind_nothing();
    slots_are_of_functions();
    judgements_bind_alike();
    scopes_are_read();
    identifiers_are_bound();
    occurrences_are_bound();
    declarations_are_occurrences();
    uses_are_bound_before();
    occurrences_keep_names();
    spaces_tell_names();
    bindings_tell_declarations();
}

/// So the pairs and the names that are read are all that there is in the unit, and nothing else.
pub fn occurrences_are_read()
    ensures { OccurrencesAreRead }
{
    pairs_are_read();
    names_are_read();
}
