//! The core program of units that were judged (ISO/IEC 9899:2011, 6.2.2, 6.9).
#![tactic(auto)]

mod bodies;
mod functions;
mod globals;
mod owners;
mod programs;
mod structs;

pub use bodies::bodies_of;
pub use functions::functions_of;
pub use globals::globals_of;
pub use owners::{keys_of, types_of};
pub use programs::program;
pub use structs::layouts;
