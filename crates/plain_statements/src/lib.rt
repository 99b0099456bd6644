//! Statements and blocks (ISO/IEC 9899:2011, 6.8).
#![tactic(auto)]

mod starts;
mod statements;

pub use statements::statement_items;
