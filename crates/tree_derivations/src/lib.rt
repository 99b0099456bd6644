//! The grammar of C as derivations (ISO/IEC 9899:2011, 6.5 to 6.9): an aid for laws on units. Here are the definitions (in `specs/`) and the law,
//! the contract of a function without a body.
#![tactic(auto)]

ghost use Rattle.tree_derivations.specs.Derivations.{UnitsAreDerived};

/// Each item of a unit is derived from its parts, as its category asks.
pub fn units_are_derived()
    ensures { UnitsAreDerived }
{}
