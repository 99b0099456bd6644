//! A checker of refutations: it says yes to clauses and steps only where no assignment satisfies the clauses.
#![tactic(auto)]

mod checker;
mod hints;
mod laws;
mod marks;
mod refusals;
mod store;

pub use checker::Checker;
pub use laws::refuted_clauses_are_unsatisfiable;
pub use refusals::{CheckError, CheckKind};
