//! The program of a project in one configuration, stage by stage (ISO/IEC 9899:2011, 5.1.1.2).
#![tactic(auto)]

mod laws;
mod programs;

pub use laws::programs_are_one;
pub use programs::{ProgramError, Stage, program};
