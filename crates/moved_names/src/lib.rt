//! The names of units and the places of their tokens: where tokens stand in files, and where the macro calls stand that bring them, has nothing to
//! do with what identifiers stand for, nor with what they are linked to (ISO/IEC 9899:2011, 5.1.1.2, 6.2.1, 6.2.2). Here are the definitions (in
//! `specs/`) and the law, the contract of a function without a body.
#![tactic(auto)]

ghost use Rattle.moved_names.specs.Laws.{MovesDontName};
ghost use Rattle.moved_names.specs.Rows.{RefusalsTellPlaces};

/// Units whose tokens stand elsewhere, in whatever places, have the same core program or none, and bind and link the same identifiers.
pub fn moves_dont_name()
    ensures { MovesDontName }
{}

/// Of refused units that isn't so: which kind of refusal counts may depend on places.
pub fn worked_row()
    ensures { RefusalsTellPlaces }
{}
