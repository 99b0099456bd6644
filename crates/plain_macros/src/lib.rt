//! The macros of one configuration, and what replaces a list of tokens (ISO/IEC 9899:2011, 6.10.3).
#![tactic(auto)]

mod calls;
mod items;
mod levels;
mod lists;
mod meaning;
mod replacement;
mod replacing;
mod runs;
mod table;

pub use meaning::Meaning;
pub use replacement::{Replacement, replaced};
pub use table::Table;
