//! The names of file scope, and the declarations and definitions of objects (ISO/IEC 9899:2011, 6.2.2, 6.7, 6.9.2).
#![tactic(auto)]

mod completion;
mod definitions;
mod firsts;
mod names;
mod objects;
mod sizes;

pub use definitions::{Unit, define};
pub use names::{Storage, declare_name, may_be_function, storage_of};
pub use objects::declare_object;
pub use sizes::judge_sizes;
