//! What readers of a unit note of it in one configuration, pairs of identifiers with what declares them and the identifiers that declare names
//! which units have in common (in `specs/`), and the laws that this is what there is in the unit (ISO/IEC 9899:2011, 6.2.1 to 6.2.3,
//! 6.5.2.3), the contracts of functions that compute nothing.
#![tactic(auto)]

mod laws;
mod rows;

pub use laws::{names_are_read, occurrences_are_read, pairs_are_read};
pub use rows::worked_rows;
