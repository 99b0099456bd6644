//! Trees of a unit in all configurations in which the alternatives for a part exclude each other.
#![tactic(auto)]

mod exclusions;

pub use exclusions::exclusive;
