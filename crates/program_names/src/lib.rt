//! Which names of file scope correspond in two programs that differ only in names, told by places (ISO/IEC 9899:2011, 6.2.1, 6.2.2). Here are the
//! definitions (in `specs/`) and the laws, the contracts of functions without a body of their own.
#![tactic(auto)]

ghost use Rattle.program_names.specs.Laws.{UnitsOfProgramsBindAlike, NamesAreOneToOne, NamesAreLinkedAlike};

/// The units of two programs that differ only in names bind alike, where each identifier is declared by the one at the same place.
pub fn units_of_programs_bind_alike()
    ensures { UnitsOfProgramsBindAlike }
{
    program_occurrences::units_of_programs_are_judged();
    program_occurrences::identifiers_are_bound();
    bindings::judgements_bind_alike();
    entity_kinds::kinds_are_alike();
    unit_numbers::units_bind_alike();
    unit_numbers::units_leave_as_many_structs();
    core_numbers::bindings_need_no_numbers();
}

/// There names of file scope that stand at one place correspond one to one.
pub fn names_are_one_to_one()
    ensures { NamesAreOneToOne }
{}

/// Where declarations are linked as before, and `main` is written where it was, they are linked alike.
pub fn names_are_linked_alike()
    ensures { NamesAreLinkedAlike }
{
    program_occurrences::units_of_programs_are_judged();
    bindings::bound_names_are_visible();
    occurrence_names::file_names_are_written();
    core_numbers::bindings_need_no_numbers();
}
