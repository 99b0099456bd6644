//! The reader of the quick form's symbols: a stack machine that takes a symbol at a time and never recurses on its input.
#![tactic(auto)]

mod frames;
mod laws;
mod moves;
mod parser;
mod spots;
mod tested;

pub use laws::{
    complete_is_written, declared_behind_int, malformed_is_refused, names_are_alike,
    numbers_are_alike, one_step_more, refusals_end, refused_is_unwritten, states_begin,
    states_complete, tests_are_kept, tests_stand_at_entries,
};
pub use parser::{NoMemory, Parser};
pub use spots::{Frame, Move, Place, SumEnd};
