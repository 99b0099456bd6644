//! What the names of identifiers are to core programs: nothing (ISO/IEC 9899:2011, 6.2.1 to 6.2.3, 6.9). Units whose trees differ only in
//! them, and whose identifiers are bound and linked alike, have the same core program. Here are the definitions (in `specs/`) and their
//! laws, the contracts of functions without a body.
#![tactic(auto)]

mod laws;
mod rows;

pub use laws::{elaborations_are_alike, programs_are_alike};
pub use rows::worked_row;
