//! The occurrences of a unit and the names that it declares for all units, in all configurations, told by the numbers of tokens in its stream.
#![tactic(auto)]

mod laws;
mod told;

pub use laws::pairs_tell_bindings;
pub use told::{ToldName, ToldUnit};
