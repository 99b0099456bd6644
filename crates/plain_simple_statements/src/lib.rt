//! Statements without statements in them, and core statements from their parts (ISO/IEC 9899:2011, 6.8.3, 6.8.6).
#![tactic(auto)]

mod cores;
mod standalone;

pub use cores::{
    Begun, as_block, asked_behind, asked_first, begun_with, behind_items, joined, looped, pushed,
    selected, single,
};
pub use standalone::{condition_or_true, discarded, expression_statement, nothing, simple};
