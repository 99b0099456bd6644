//! Preprocessing of one unit in one configuration (ISO/IEC 9899:2011, 6.10).
#![tactic(auto)]

mod conditions;
mod defined;
mod directives;
mod errors;
mod features;
mod groups;
mod laws;
mod projects;
mod readings;
mod units;
mod walk;

pub use errors::PpError;
pub use laws::{outcomes_are_one, projects_have_syntax};
pub use projects::preprocess;
pub use unit_files::PpKind;
