//! What the scalars of an object hold, by the paths that lead to them, and the types of its parts (ISO/IEC 9899:2011, 6.2.5,
//! 6.5.6).
#![tactic(auto)]

mod cells;
mod parts;
mod values;

pub use cells::{Cells, Held, Zeros};
pub use parts::{Stand, is_inside, is_scalar, part_count, part_type, stand_of, type_at, zero};
pub use values::{
    Location, Pointer, Scalar, Step, Value, is_same_path, is_same_pointer, is_true, path_of,
};
