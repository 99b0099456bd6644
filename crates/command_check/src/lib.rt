//! The command `check PROJECT`: whether all products of a project are accepted.
#![tactic(auto)]

mod laws;
mod products;

pub use laws::{check_concludes, check_is_decided};
pub use products::check;
