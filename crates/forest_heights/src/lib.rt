//! Where the trees that configurations see of a forest are too high.
#![tactic(auto)]

mod alternatives;
mod heights;
mod levels;

pub use heights::too_high;
