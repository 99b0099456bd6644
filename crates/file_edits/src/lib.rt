//! Edits of the files of a project: spans are replaced, and all other bytes stay.
#![tactic(auto)]

mod applying;
mod edit;
mod faults;
#[cfg(test)]
mod tests;
mod writing;

pub use applying::apply;
pub use edit::{Edit, EditError};
