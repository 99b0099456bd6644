//! How a token is read where it is there, in trees of a unit in all configurations.
#![tactic(auto)]

mod reading;

pub use reading::{Reading, Setting, read, read_behind};
