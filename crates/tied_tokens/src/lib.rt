//! Which tokens of files are reached from one along ties: identifiers with what declares them, and tokens that declare one name
//! (ISO/IEC 9899:2011, 6.2.1, 6.2.2, 6.2.7). Each tie is under a condition, and all configurations are asked at once.
#![tactic(auto)]

mod classes;
mod names;
mod questions;
mod steps;
mod ties;
mod tokens;

pub use classes::{class_of_ties, occurs_somewhere};
pub use names::{CommonName, DeclaredName};
pub use ties::{Tie, TiedTokens};
