//! All that the program does: a command is carried out over a store, and its report given to a sink.
#![tactic(auto)]

mod commands;
mod laws;
mod top;

pub use commands::Which;
pub use laws::calls_conclude;
pub use top::morpheus;
