//! Declarations of locals, and initialisers (ISO/IEC 9899:2011, 6.7, 6.7.9).
#![tactic(auto)]

mod constants;
mod initialisers;
mod locals;

pub use constants::is_allowed;
pub use initialisers::{Initial, initialised};
pub use locals::{LocalItem, declared_locals};
