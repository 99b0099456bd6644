//! Spans of bytes in a file, and the files of a project.
#![tactic(auto)]

mod files;
mod span;

pub use files::{Files, SourceFile};
pub use span::Span;
