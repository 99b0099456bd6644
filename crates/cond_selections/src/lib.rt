//! In which structs the expressions of a forest select members, in all configurations at once.
#![tactic(auto)]

mod entries;
mod names;
mod structures;
mod walks;

pub use entries::{Selection, Structure};
pub use walks::push_selections;
