//! Questions about all admitted configurations of a project: the least one that makes a formula true, or a refutation.
#![tactic(auto)]

mod guesses;
mod laws;
mod oracles;
mod questions;
mod ranges;

pub use guesses::suggested;
pub use laws::{equal_conditions_have_one_least_model, fewer_features_suffice};
pub use oracles::ModelOracle;
pub use questions::{Verdict, ask};
