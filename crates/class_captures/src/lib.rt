//! Where the renaming of a class captures a name, in all configurations at once: where the trees with the new name have no core program, or
//! some identifier is bound or linked to another declaration than before (ISO/IEC 9899:2011, 6.2.1, 6.2.2).
#![tactic(auto)]

mod captures;
mod laws;
mod links;
mod renamed;

pub use captures::where_captured;
pub use laws::links_are_told_by_names;
pub use links::where_linked_otherwise;
pub use renamed::renamed_forests;
