//! Full expressions, temporary objects and calls, as actions of a machine, and the functions of the built-in headers (ISO/IEC
//! 9899:2011, 6.2.4, 6.5.2.2, 6.8, 7.21.7, 7.22.4.4).
#![tactic(auto)]

mod calls;
mod library;

pub use calls::{argument, call_without, end_full, enter, return_to, temporary};
pub use library::int_of;
