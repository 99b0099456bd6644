//! Two lists under conditions whose entries are matched in pairs, as the arguments of a call with the parameters of a function. Which entries
//! are a pair differs with the configuration, so pairs of places of the lists are kept, each under the condition under which matching comes to
//! it: a table of the places of the one list by those of the other, of which a row at a time is held.
#![tactic(auto)]

mod cells;
mod matching;
mod rows;

pub use matching::{Longer, Matching};
pub use rows::match_lists;
