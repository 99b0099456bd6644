//! Formulas that name the features of a project alone.
#![tactic(auto)]

mod ranges;

pub use ranges::within_features;
