//! Where a class of tokens has an occurrence in a project that stands in the way of a new name, in all configurations: one that comes out of the
//! body of a macro, or is fixed (ISO/IEC 9899:2011, 5.1.2.2.1, 6.10.3).
#![tactic(auto)]

mod conditions;
mod laws;

pub use conditions::{where_fixed_in, where_in_macro_body};
pub use laws::{conditions_tell_preconditions, told_pass_as_occurrences};
