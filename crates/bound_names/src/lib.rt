//! Names of identifiers, and of what they are bound to (ISO/IEC 9899:2011, 6.2.1 to 6.2.3): the definitions (in `specs/`) and the laws, the
//! contracts of functions without a body of their own.
#![tactic(auto)]

ghost use Rattle.bound_names.specs.Laws.{IdentifiersKeepNames, UsesAreOfBefore};

/// Each identifier of a unit is bound to one of the same name.
pub fn identifiers_keep_names()
    ensures { IdentifiersKeepNames }
{}

/// A name of file scope that an expression uses is declared before.
pub fn uses_are_of_before()
    ensures { UsesAreOfBefore }
{}
