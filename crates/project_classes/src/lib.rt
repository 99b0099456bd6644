//! The reference class of a token of a project's files, or that there is nothing to rename at it (ISO/IEC 9899:2011, 6.2.1 to 6.2.3, 6.2.7).
#![tactic(auto)]

mod classes;

pub use classes::{ClassAnswer, class_of};
