//! What declares the tokens of a unit in all configurations, token by token (ISO/IEC 9899:2011, 6.2.1), and where two units of as many tokens
//! differ in that.
#![tactic(auto)]

mod differences;
mod tokens;

pub use tokens::{DeclaredBy, DeclaredTokens};
