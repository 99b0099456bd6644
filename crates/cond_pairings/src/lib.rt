//! The identifiers of a unit in pairs with what declares them, each under its condition (ISO/IEC 9899:2011, 6.2.1 to 6.2.3).
#![tactic(auto)]

mod chains;
mod pairs;

pub use pairs::{CondPairing, pairings};
