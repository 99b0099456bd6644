//! Project files: what they say, and their faults.
#![tactic(auto)]

mod contents;
mod documents;
mod errors;
mod laws;
mod names;
mod parse;
mod projects;
mod shape;
mod units;

pub use errors::ProjectError;
pub use laws::{first_fault_is_one, projects_are_alike, projects_have_no_fault};
pub use parse::{LONGEST_FILE, oversized, parse_project};
pub use projects::{Project, Unit};
