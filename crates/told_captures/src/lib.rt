//! What tells whether the renaming of a class binds or links an identifier otherwise (ISO/IEC 9899:2011, 6.2.1, 6.2.2). Here are the definitions
//! (in `specs/`) and the laws, the contracts of functions without a body of their own.
#![tactic(auto)]

ghost use Rattle.told_captures.specs.Laws.{PairsOfRenamedTellBindings, CapturesAreTold};

/// The pairs of a unit and of the one with the new name tell whether they bind alike.
pub fn pairs_of_renamed_tell_bindings()
    ensures { PairsOfRenamedTellBindings }
{
    program_occurrences::identifiers_are_bound();
    bindings::judgements_bind_alike();
    told_occurrences::pairs_tell_bindings();
}

/// Pairs, and declarations with external linkage, tell whether two programs bind and link alike.
pub fn captures_are_told()
    ensures { CapturesAreTold }
{
    program_occurrences::units_of_programs_are_judged();
    linked_otherwise::links_of_renamed_are_told();
    pairs_of_renamed_tell_bindings();
}
