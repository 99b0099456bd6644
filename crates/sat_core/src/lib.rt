//! Whether a formula has a model: the least one, or a refutation of the clauses into which the formula is translated.
#![tactic(auto)]

mod answers;
mod configs;
mod laws;
mod solver;
mod translation;

pub use answers::{Answer, Proof};
pub use clause_search::Step;
pub use configs::config_of;
pub use laws::{
    refutations_are_accepted, refuted_formulas_have_no_model, translations_are_equisatisfiable,
};
pub use solver::solve;
pub use translation::{Translation, translate};
