//! The name spaces in which the identifiers of a unit declare names that units have in common (ISO/IEC 9899:2011, 6.2.2, 6.2.3, 6.2.7), told by
//! the kinds of nodes (in `specs/`), and the laws that these are the names of what the unit declares, the contracts of functions that
//! compute nothing.
#![tactic(auto)]

ghost use Rattle.name_spaces.specs.Laws.{SpacesTellNames, BindingsTellDeclarations, DeclaredNamesAreTold};
ghost use Rattle.name_spaces.specs.Rows.{MembersAreOfTheirStruct, BlocksAreInNone};

use bindings::judgements_bind_alike;
use bound_slots::{sizes_bind_nothing, slots_are_of_functions};
use occurrence_names::{file_names_are_written, occurrences_keep_names};
use program_occurrences::{identifiers_are_bound, occurrences_are_bound};
use tree_derivations::units_are_derived;
use unit_numbers::uses_are_bound_before;

/// In a unit that is judged well, the name space of an identifier that declares itself tells the name in common by which it is known.
pub fn spaces_tell_names()
    ensures { SpacesTellNames }
{
    units_are_derived();
    sizes_bind_nothing();
    judgements_bind_alike();
    identifiers_are_bound();
    uses_are_bound_before();
    occurrences_keep_names();
    file_names_are_written();
}

/// In a unit that is judged well, an identifier declares itself exactly where the bindings of the unit bind it to itself.
pub fn bindings_tell_declarations()
    ensures { BindingsTellDeclarations }
{
    judgements_bind_alike();
    identifiers_are_bound();
    occurrences_are_bound();
    slots_are_of_functions();
}

/// So the bindings of such a unit and the name spaces of its identifiers tell which names in common it declares, and where.
pub fn declared_names_are_told()
    ensures { DeclaredNamesAreTold }
{
    occurrences_are_bound();
    spaces_tell_names();
    bindings_tell_declarations();
}

/// The name spaces of identifiers of units by hand.
pub fn worked_rows()
    ensures members { MembersAreOfTheirStruct }
    ensures blocks { BlocksAreInNone }
{}
