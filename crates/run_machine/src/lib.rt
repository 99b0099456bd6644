//! What a run of a core program stands at: the program, the input that is left, the output, memory, and the stacks (ISO/IEC
//! 9899:2011, 5.1.2.3).
#![tactic(auto)]

mod frames;
mod machine;
mod objects;
mod slots;

pub use frames::{frame_of, held_at, hold};
pub use machine::Machine;
pub use objects::{end_all, write_along, write_whole};
pub use slots::declare;
