//! The cases of files of vectors, a line each: for the programs that run them.
#![tactic(auto)]

mod case;
mod escapes;
mod fields;

pub use case::{Case, Output, copy_of};
pub use fields::LineError;
