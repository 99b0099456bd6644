//! Where a reference class is touched, in all configurations at once: where a unit reads one of its tokens, and where one is read while
//! a name is defined as a macro (ISO/IEC 9899:2011, 6.10.1, 6.10.3).
#![tactic(auto)]

mod laws;
mod touches;
mod units;

pub use laws::{lists_are_read_as_classes, lists_touch_as_classes};
pub use touches::{read_as_macro, touched};
