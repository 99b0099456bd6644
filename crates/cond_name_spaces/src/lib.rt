//! In which name spaces the identifiers of a unit stand that may declare what units have in common, in all configurations at once.
#![tactic(auto)]

mod entries;
mod names;
mod roles;
mod tags;
mod units;
mod walks;

pub use entries::{Space, SpacedName};
pub use units::note_spaces;
