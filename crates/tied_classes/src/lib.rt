//! Reference classes, found along ties: where ties between tokens of files tell the products of a project, the tokens that are reached
//! from one are its class (ISO/IEC 9899:2011, 6.2.1, 6.2.2, 6.2.7). Here are the laws (in `specs/`), each the contract of a function
//! without a body.
#![tactic(auto)]

mod laws;

pub use laws::{occurrences_are_told, reached_are_class};
