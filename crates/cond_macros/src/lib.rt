//! What replaces a list of tokens in all configurations (ISO/IEC 9899:2011, 6.10.3).
#![tactic(auto)]

mod replacement;
mod replacing;

pub use replacement::{CondReplacement, replaced};
