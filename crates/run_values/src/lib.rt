//! The actions of a run that take a value, a scalar, a place or a condition and leave another, as those of a machine (ISO/IEC
//! 9899:2011, 6.5).
#![tactic(auto)]

mod values;

pub use values::{
    address, and, begin_value, branch, choose, convert, falls, first_element, member, not, nothing,
    operate, or, read, return_value, target, test, truth_value, update, update_after, use_scalar,
    use_value, write,
};
