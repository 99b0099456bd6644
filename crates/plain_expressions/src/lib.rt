//! What expressions are, their types, and constants (ISO/IEC 9899:2011, 6.4.4, 6.4.5, 6.5, 6.6).
#![tactic(auto)]

mod callees;
mod constancy;
mod constants;
mod expressions;
mod names;
mod sizes;

pub use constancy::{MOST_ELEMENTS, constant_value, count, is_constant, value_if_constant};
pub use constants::{character, text_bytes, type_of_number};
pub use expressions::{condition, entry_count, judged, valued};
pub use sizes::{MOST_SCALARS, is_small, scalars_with};
