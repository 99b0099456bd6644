//! What is known before a token of the trees of a unit in all configurations: nodes that are whole whatever comes next, lists that begin or
//! don't, and alternatives that leave their nodes.
#![tactic(auto)]

mod alternatives;
mod places;
mod settling;

pub use alternatives::{is_inside, left};
pub use places::{around_here, left_out, whole};
pub use settling::{Ahead, settled, settled_after};
