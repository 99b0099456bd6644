//! Where a class of tokens has an occurrence that stands in the way of a new name, in all configurations.
#![tactic(auto)]

mod laws;
mod occurrences;
mod tests;

pub use laws::tests_are_of_preconditions;
pub use occurrences::UnitPairs;
pub use tests::{where_fixed, where_from_macro_body};
