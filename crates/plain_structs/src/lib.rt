//! The definitions of structs in a unit, and their members (ISO/IEC 9899:2011, 6.7.2.1, 6.7.2.3).
#![tactic(auto)]

mod members;
mod structs;

pub use structs::define_struct;
