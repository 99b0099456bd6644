//! Texts that are numbers in decimal.
#![tactic(auto)]

mod numbers;

pub use numbers::number_in;
