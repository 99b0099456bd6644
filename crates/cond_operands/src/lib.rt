//! What operators make of operands in all configurations at once. An operand is kept by its distinct types, each under a condition,
//! and an operator is asked once for each type, or for each pair of types.
#![tactic(auto)]

mod judgements;
mod operators;
mod pairs;

pub use judgements::{Operands, Passed, Tests};
pub use operators::{cast, fitted, loaded, prefixed, stepped, tested};
pub use pairs::{assigned, chosen, combined, indexed};
