//! Tokens under presence conditions: what a unit's text is in all configurations.
#![tactic(auto)]

mod lists;
mod tokens;

pub use lists::{from_list, into_list};
pub use tokens::{CondStream, CondToken};
