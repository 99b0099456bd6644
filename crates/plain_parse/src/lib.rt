//! The parser of a unit's tokens (ISO/IEC 9899:2011, 6.5 to 6.9): the tree of the tokens, or why there is none.
#![tactic(auto)]

mod frames;
mod makings;
mod parser;
mod readings;
mod turns;
mod values;

pub use parser::{ParseError, parse};
