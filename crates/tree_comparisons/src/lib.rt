//! Whether the trees of a unit in all configurations are, in one of them, what the parser of one configuration reads: for programs of
//! cases.
#![tactic(auto)]

mod comparing;
mod same;

pub use comparing::{Comparison, compared};
pub use same::is_same_tree;
