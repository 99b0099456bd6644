//! The laws on first values.
ghost use Rattle.cond_initialisers.specs.ConstantLaws.{GlobalsAreRefusedByConstants, FirstValuesAreThere};

use crate::locals_are_refused_by_types;
use expression_types::expressions_have_types;

/// An expression that initialises an object of file scope is refused by its type and by what is constant exactly where what it gives the object is.
pub fn globals_are_refused_by_constants()
    ensures { GlobalsAreRefusedByConstants }
{
    expressions_have_types();
    locals_are_refused_by_types();
}

/// What an initialiser gives an object of file scope, if it isn't refused, has first values.
pub fn first_values_are_there()
    ensures { FirstValuesAreThere }
{}
