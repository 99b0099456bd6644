//! Steps under conditions: a state of all configurations goes on where a condition is true, and stays what it is elsewhere. Where the conditions of
//! alternatives are tried one after the other, of which one holds, one step is done (`proofs/`).
#![tactic(auto)]

mod conditions;

pub use conditions::{never, possible_both, where_refused};
pub use reduced_conditions::both_of;
