//! Statements, the items of blocks and initialisers, as actions of a machine (ISO/IEC 9899:2011, 6.7.9, 6.8).
#![tactic(auto)]

mod declarations;
mod statements;

pub use declarations::{end_scope, items, rest_of_items, write_part};
pub use statements::{after_turn, asks_again, begin_statement, turn};
