//! What the identifiers of a unit are bound to (ISO/IEC 9899:2011, 6.2.1 to 6.2.3), apart from its types. Here are the definitions (in `specs/`)
//! and their laws, the contracts of functions without a body.
#![tactic(auto)]

mod laws;
mod rows;

pub use laws::{
    bound_names_are_visible, declared_is_unrefused, file_names_are_used_alike,
    judgements_bind_alike, programs_are_judged, undeclared_is_first, units_are_judged,
};
pub use rows::worked_rows;
