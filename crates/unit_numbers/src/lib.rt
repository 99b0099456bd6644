//! The entities of a whole unit are numbered in the order of its text (ISO/IEC 9899:2011, 6.2.1 to 6.2.3). Here are the definitions (in
//! `specs/`) and the laws, the contracts of functions without a body.
#![tactic(auto)]

ghost use Rattle.unit_numbers.specs.Laws.{UnitsAreNumbered, UsesAreBoundBefore, UnitsBindAlike, UnitsLeaveAsManyStructs};
ghost use Rattle.unit_numbers.specs.Rows.{EntitiesAreNumbered, NumbersGoOn, NoneIsLeftOut, KindsStandAtPlaces, MembersAreOfTiedStructs};

/// In a unit of the grammar that is judged well, each entity has the next number of its kind where an identifier is first bound to it:
/// structs behind those of the units before, members from the first of their struct on, slots from the first of their function on.
pub fn units_are_numbered()
    ensures { UnitsAreNumbered }
{
    tree_derivations::units_are_derived();
    entity_numbers::units_name_parameters();
    bound_slots::sizes_bind_nothing();
}

/// There what an expression uses is bound before: slots and members as they are numbered, names of file scope as units are read.
pub fn uses_are_bound_before()
    ensures { UsesAreBoundBefore }
{
    tree_derivations::units_are_derived();
    entity_numbers::units_name_parameters();
    bound_slots::sizes_bind_nothing();
    entity_kinds::kinds_are_alike();
    bound_slots::slots_are_of_functions();
    bindings::judgements_bind_alike();
    bindings::file_names_are_used_alike();
    bound_names::uses_are_of_before();
}

/// So two units that differ only in names bind their identifiers alike, where these have the same numbers, and are declared by
/// identifiers with the same numbers.
pub fn units_bind_alike()
    ensures { UnitsBindAlike }
{
    units_are_numbered();
    entity_numbers::firsts_are_bound_alike();
    bindings::judgements_bind_alike();
    program_occurrences::identifiers_are_bound();
    entity_kinds::kinds_are_alike();
    bound_slots::slots_are_of_functions();
    uses_are_bound_before();
}

/// Two units that bind alike, behind as many structs, leave as many behind: those that they bind.
pub fn units_leave_as_many_structs()
    ensures { UnitsLeaveAsManyStructs }
{
    tree_derivations::units_are_derived();
    entity_numbers::units_name_parameters();
    bound_slots::sizes_bind_nothing();
}

/// What identifiers of units by hand are bound to.
pub fn worked_rows()
    ensures numbered { EntitiesAreNumbered }
    ensures further { NumbersGoOn }
    ensures none { NoneIsLeftOut }
    ensures kinds { KindsStandAtPlaces }
    ensures members { MembersAreOfTiedStructs }
{}
