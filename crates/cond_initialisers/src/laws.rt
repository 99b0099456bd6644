//! The laws on initialisers.
ghost use Rattle.cond_initialisers.specs.Laws.{LocalsAreRefusedByTypes, InitialisersAreRefused};

use expression_types::expressions_have_types;
use operand_types::types_are_kept;

/// An initialiser is refused entry by entry exactly where what it gives is.
pub fn initialisers_are_refused()
    ensures { InitialisersAreRefused }
{}

/// An expression that initialises a local is refused by its type exactly where what it gives the local is.
pub fn locals_are_refused_by_types()
    ensures { LocalsAreRefusedByTypes }
{
    expressions_have_types();
    types_are_kept();
}
