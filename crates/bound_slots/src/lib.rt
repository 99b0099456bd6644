//! To which slots the identifiers of a unit are bound (ISO/IEC 9899:2011, 6.2.1, 6.6): the definitions (in `specs/`) and the laws, each
//! the contract of a function without a body of its own.
#![tactic(auto)]

ghost use Rattle.bound_slots.specs.Laws.{SizesBindNothing, SlotsAreOfFunctions};

/// The size of an array binds nothing where it is judged well.
pub fn sizes_bind_nothing()
    ensures { SizesBindNothing }
{}

/// In a unit that is judged well, each slot to which an identifier is bound is a function's.
pub fn slots_are_of_functions()
    ensures { SlotsAreOfFunctions }
{}
