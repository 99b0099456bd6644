//! Numbers of scalars in all configurations (ISO/IEC 9899:2011, 6.2.5), up to the limit on the size of an object: sums of parts under conditions, so
//! that what may be there or not isn't multiplied out.
#![tactic(auto)]

mod limits;
mod sums;

pub use sums::{CondPart, CondSum};
