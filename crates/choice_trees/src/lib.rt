//! Syntax trees in which parts are alternatives under presence conditions, and the tree that each configuration sees.
#![tactic(auto)]

mod laws;
mod projecting;
mod trees;

pub use laws::leaves_are_spelled;
pub use projecting::{needs_statement, no_statement, nowhere, project};
pub use trees::{Choice, Forest, Item};
