//! The macros that are defined under presence conditions (ISO/IEC 9899:2011, 6.10.3). In each configuration the table is the
//! one that the directives of that configuration make.
#![tactic(auto)]

mod barred;
mod definitions;
mod macros;
mod meanings;
mod table;

pub use definitions::Definition;
pub use macros::Macros;
pub use table::MacroTable;

#[cfg(test)]
mod tests;
