//! Objects of a run: how they are made, read, written and ended, where pointers stand in them, and operations on scalars
//! (ISO/IEC 9899:2011, 6.2.4, 6.3, 6.5).
#![tactic(auto)]

mod initial;
mod memory;
mod operations;
mod pointers;
mod texts;

pub use memory::{Memory, Object};
pub use operations::{changed, converted, operated, scalar_in_type};
pub use pointers::{Indices, element, first_element};
pub use texts::{byte_of, text_at};
