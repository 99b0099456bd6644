//! Syntax trees of C (ISO/IEC 9899:2011, 6.5 to 6.9): the tree of a unit, what it spells, how high it is.
#![tactic(auto)]

mod heights;
mod kinds;
mod laws;
mod spellings;
mod terminals;
mod trees;

pub use heights::{height, node_height, token_height};
pub use kinds::Kind;
pub use laws::{
    tokens_spell_one_unit, what_begins_a_unit_can_be_read, what_can_be_read_begins_a_unit,
    what_is_read_is_spelt, what_is_spelt_is_read,
};
pub use spellings::terminal;
pub use terminals::Terminal;
pub use trees::{Tree, spell};
