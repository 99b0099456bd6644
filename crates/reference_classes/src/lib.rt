//! Reference classes: which tokens of a project's files mean one thing, in whichever product they are read, and what stands in the
//! way of giving it another name (ISO/IEC 9899:2011, 6.2.1 to 6.2.3, 6.10.3). Here are the definitions (in `specs/`) and their laws,
//! the contracts of functions without a body.
#![tactic(auto)]

mod laws;

pub use laws::{classes_are_least, classes_are_one};
