//! Which tokens stand next to each other in the units of the grammar (ISO/IEC 9899:2011, 6.7 to 6.9). Here are the definitions (in
//! `specs/`) and the law, the contract of a function without a body.
#![tactic(auto)]

ghost use Rattle.tree_pairs.specs.Pairs.{UnitsDeclareNoNumber};

/// In no unit does a number stand right behind `int`: a declarator begins with a star or a name.
pub fn units_declare_no_number()
    ensures { UnitsDeclareNoNumber }
{}
