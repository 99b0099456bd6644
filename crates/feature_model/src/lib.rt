//! Feature models: which configurations the constraints of a project admit.
#![tactic(auto)]

mod connectives;
mod constraints;
mod errors;
mod laws;
mod lexer;
mod model;
mod reader;
mod signs;
mod tokens;

pub use constraints::parse_constraint;
pub use errors::ModelError;
pub use laws::{tokens_are_one, tree_is_one};
pub use model::Model;
pub use signs::Sign;
