//! The trees of a unit in all configurations once more, with other tokens: with a new name for tokens of its project's files, or with tokens
//! that tell their numbers. The conditions of alternatives stay.
#![tactic(auto)]

mod changing;
mod laws;
mod numbering;
mod renaming;

pub use changing::{TokenChange, changed};
pub use laws::{changes_are_seen, numberings_are_seen, renamings_are_seen, sites_dont_matter};
pub use numbering::numbered;
pub use renaming::{copied, copies_any, rename};
