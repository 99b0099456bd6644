//! Trees whose tokens are changed, as they are put elsewhere or get another name, while each is to the grammar what it was (ISO/IEC 9899:2011, 6.4):
//! laws, the contracts of functions that compute nothing.
#![tactic(auto)]

ghost use Rattle.moved_trees.specs.Laws.{ChangedAreRead, UnitsStayUnits};

use c_tree::{what_is_read_is_spelt, what_is_spelt_is_read};

/// Changed tokens are read as the changed tree.
pub fn changed_are_read()
    ensures { ChangedAreRead }
{}

/// A changed tree is a unit exactly where it was one.
pub fn units_stay_units()
    ensures { UnitsStayUnits }
{
    what_is_read_is_spelt();
    what_is_spelt_is_read();
}
