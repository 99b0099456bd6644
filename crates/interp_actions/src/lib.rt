//! What is still to be done in a run and what is at hand for it, and the actions that take a value, a scalar, a place or a
//! condition and leave another (ISO/IEC 9899:2011, 5.1.2.3, 6.5).
#![tactic(auto)]

mod actions;
mod control;
mod evaluation;
mod places;

pub use actions::{Action, Ending, Flow, Frame, Initialiser, Operand, Turns};
pub use control::{Control, begin_full, push, push_five, push_four, push_three, push_two};
pub use evaluation::{
    address, and, branch, choose, convert, falls, not, nothing, or, put_scalar, return_value,
    target, test, to_first_element, truth_value, use_scalar, use_value,
};
pub use places::{member, operate, put_object, read, update, update_after, write, write_and_put};
