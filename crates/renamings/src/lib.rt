//! Renamings in the files of a project.
#![tactic(auto)]

mod laws;

pub use laws::{lines_are_renamed, places_keep_their_order, tokens_stand_apart};
