//! Preprocessing of one unit in all configurations at once (ISO/IEC 9899:2011, 6.10).
#![tactic(auto)]

mod activity;
mod laws;
mod projects;
mod streams;
mod units;
mod walk;
mod watch;

pub use activity::{active, any_active, any_defined_at, defined_at};
pub use laws::streams_come_from_active;
pub use streams::preprocess_all;
