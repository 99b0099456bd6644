//! The occurrences of the units of a project in all configurations, and the names that they declare for all units.
#![tactic(auto)]

mod names;
mod own;
mod units;

pub use units::told_units;
