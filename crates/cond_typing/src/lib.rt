//! What expressions of a forest are, read in all configurations at once.
#![tactic(auto)]

mod arguments;
mod casts;
mod expressions;
mod laws;
mod leaves;
mod lengths;
mod parts;
mod roles;
mod texts;
mod variants;

pub use casts::words;
pub use expressions::{read_choice, read_expression};
pub use laws::null_constants_are_numbers;
pub use leaves::single;
pub use parts::{no_parts, push_leaf, push_refused};
