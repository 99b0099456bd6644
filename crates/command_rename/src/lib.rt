//! The command `rename PROJECT FILE@OFFSET NEW OUT`: what stands at a place of a project's file gets a new name in all products of the project, or is
//! told what stands in the way.
#![tactic(auto)]

mod laws;
mod renaming;

pub use laws::{rename_concludes, rename_is_decided, renamings_that_are_written_keep_products};
pub use renaming::rename;
