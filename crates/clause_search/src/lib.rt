//! A search for the least assignment that satisfies clauses. Where there is none, the answer is a refutation.
#![tactic(auto)]

mod answers;
mod assignments;
mod forms;
mod grounds;
mod laws;
mod literals;
mod numbers;
mod trail;
mod turns;
mod watched;

pub use answers::{Found, Step};
pub use forms::are_clauses;
pub use laws::{
    clauses_depend_on_their_variables, least_assignments_are_the_same,
    least_is_least_on_the_first_variables,
};
pub use turns::search;
