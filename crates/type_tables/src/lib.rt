//! What names and structs are known to be at a place of a unit in all configurations (ISO/IEC 9899:2011, 6.2.1 to 6.2.3).
#![tactic(auto)]

mod blocks;
mod definitions;
mod entries;
mod names;
mod questions;
mod structs;
mod tables;

pub use blocks::Outside;
pub use definitions::Definition;
pub use entries::{
    CondName, CondSignature, CondStruct, DeclaredType, FileName, LocalName, Member, Sort,
};
pub use tables::Tables;
