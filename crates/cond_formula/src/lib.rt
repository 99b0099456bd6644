//! Presence conditions: which configurations there are, formulas over their features, and the calls that ask about them.
#![tactic(auto)]

mod configuration;
mod connectives;
mod copies;
mod cubes;
mod formulas;
mod laws;
mod oracles;
mod print;
mod sizes;

pub use configuration::Config;
pub use cubes::Cube;
pub use formulas::Formula;
pub use laws::expression_texts_have_one_meaning;
pub use oracles::{May, Oracle, PlainOracle};

/// Want of memory, the one error of a call that can fail in no other way.
pub type NoMemory = std::alloc::AllocError;
