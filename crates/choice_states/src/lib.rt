//! States of the parser of all configurations: the nodes that have begun, with parts that are alternatives under conditions, and where
//! one stands in them. In each configuration a state stands for frames of the reader of one configuration.
#![tactic(auto)]

mod closings;
mod copies;
mod joins;
mod laws;
mod lists;
mod parts;
mod places;
mod pushes;
mod states;

pub use closings::finished;
pub use joins::{joined, split};
pub use laws::{leaves_are_the_tokens, trees_are_read, units_are_seen};
pub use lists::{around, list_at};
pub use parts::{certain, leaf_of, some_are_there};
pub use places::{behind_left_out, ending, is_same_place};
pub use pushes::{number_before, push, push_nothing};
pub use states::{After, Closing, State};
