//! The parts of a node variant by variant: where alternatives stand for parts, which parts the node has in which configurations.
#![tactic(auto)]

mod alternatives;
mod nodes;
mod parts;

pub use alternatives::may_hold;
pub use nodes::variants;
pub use parts::{Part, Variant};
