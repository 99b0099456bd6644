//! Where the renaming of a class links declarations otherwise than before (ISO/IEC 9899:2011, 6.2.2), told by the class and the names before.
//! Here are the definitions (in `specs/`) and the laws, the contracts of functions without a body of their own.
#![tactic(auto)]

ghost use Rattle.linked_otherwise.specs.Laws.{ClosedAreRenamedTogether, LinksAreTold, LinksOfRenamedAreTold};

/// A class that has all that its identifiers bring along has all declarations of a name or none.
pub fn closed_are_renamed_together()
    ensures { ClosedAreRenamedTogether }
{}

/// Units whose declarations are renamed together are linked as they were exactly where none is linked otherwise.
pub fn links_are_told()
    ensures { LinksAreTold }
{}

/// So are programs with renamed trees.
pub fn links_of_renamed_are_told()
    ensures { LinksOfRenamedAreTold }
{
    tree_derivations::units_are_derived();
    program_occurrences::units_of_programs_are_judged();
    occurrence_names::file_names_are_written();
    program_names::units_of_programs_bind_alike();
    program_names::names_are_one_to_one();
    links_are_told();
}
