//! The values of `#if` expressions in all configurations (ISO/IEC 9899:2011, 6.10.1).
#![tactic(auto)]

mod answers;
mod conditions;
mod evaluation;
mod places;
mod pruning;

pub use conditions::{both, one_of};
pub use evaluation::evaluate_all;
