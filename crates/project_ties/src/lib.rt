//! What is told of the identifiers of a project's units, as ties between the tokens of its files and names that they declare (ISO/IEC 9899:2011,
//! 6.2.1 to 6.2.3), in all configurations that the project admits.
#![tactic(auto)]

mod conditions;
mod names;
mod projects;
mod ties;
mod tokens;

pub use names::names_of_units;
pub use projects::{ProjectTies, ties_of_told};
pub use ties::ties_of_units;
