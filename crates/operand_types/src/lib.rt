//! What operands are to the operators around them: their types, and whether they are objects (in `specs/`), and the law that operators
//! make of operands what they make of these types (ISO/IEC 9899:2011, 6.3.2, 6.5), the contract of a function that computes nothing.
#![tactic(auto)]

ghost use Rattle.operand_types.specs.Laws.{TypesAreKept};

/// The type of what an operator makes of operands is what it makes of their types, whatever numbers structs have.
pub fn types_are_kept()
    ensures { TypesAreKept }
{}
