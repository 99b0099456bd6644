//! What commands that refactor a project have in common: the course of such a command, that it does one thing at most and comes to
//! something, and what it says.
#![tactic(auto)]

mod laws;
mod sayings;

pub use laws::{Refactoring, refactorings_are_decided, refactorings_conclude};
pub use sayings::{files_in, nothing_there, put_in, refused_at};
