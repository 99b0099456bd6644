//! What a unit's identifiers are bound to, read by the kinds of its nodes and with the numbers that its tokens have in a stream (in `specs/`),
//! and the law that these are its bindings (ISO/IEC 9899:2011, 6.2.1 to 6.2.3), the contract of a function that computes nothing.
#![tactic(auto)]

ghost use Rattle.scope_readings.specs.Laws.{ScopesAreRead, FileNamesAreRead};

use tree_derivations::units_are_derived;

/// What is found by the kinds of nodes are the bindings of the unit, but for the uses of members.
pub fn scopes_are_read()
    ensures { ScopesAreRead }
{
    units_are_derived();
}

/// The names of file scope that expressions use, too, are found by the kinds of nodes.
pub fn file_names_are_read()
    ensures { FileNamesAreRead }
{
    units_are_derived();
}
