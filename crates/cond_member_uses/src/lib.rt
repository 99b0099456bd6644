//! The uses of members in the bodies of functions, in all configurations at once (ISO/IEC 9899:2011, 6.5.2.3, 6.8).
#![tactic(auto)]

mod bodies;
mod declarators;
mod locals;
mod statements;

pub use bodies::note_body;
