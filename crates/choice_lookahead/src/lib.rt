//! What the tokens ahead do at a place, in all configurations of a path.
#![tactic(auto)]

mod ahead;

pub use ahead::{Ending, begins_nothing, enters, next_ending};
