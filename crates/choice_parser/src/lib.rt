//! The parser of a unit's tokens in all configurations: one sweep over the tokens under conditions, by the same moves as that of one
//! configuration.
#![tactic(auto)]

mod parser;
mod refusals;
mod units;

pub use parser::{Parsed, parse_all};
