//! The groups of conditional lines of a unit in all configurations at once: what lines begin and close them, where their branches
//! are read, and what the tokens between two lines come to there (ISO/IEC 9899:2011, 6.10.1). Seen in a configuration each step
//! here is there the step of the definition.
#![tactic(auto)]

mod branches;
mod conditions;
mod groups;
mod runs;

pub use branches::{begin_group, next_branch, refuse_end};
pub use groups::{CondGroup, OpenGroups};
pub use runs::read_run;
