//! What the node of an expression is in all configurations at once, by what has been read of its parts.
#![tactic(auto)]

mod calls;
mod knowledge;
mod leading;
mod members;
mod nodes;
mod operands;
mod parts;

pub use knowledge::Knowledge;
pub use nodes::node_read;
pub use operands::refused_everywhere;
pub use parts::{Callee, CastType, CondParts, CondRead};
