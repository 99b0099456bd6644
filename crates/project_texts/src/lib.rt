//! Projects read from a store with the text that says them.
#![tactic(auto)]

mod texts;

pub use texts::{ProjectText, read_project_text};
