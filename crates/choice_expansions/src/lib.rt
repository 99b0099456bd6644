//! The whole trees that an item with alternatives stands for, each under a condition. Their number is the product of those of its parts, so
//! this is for small items: the words of a declaration, a declarator, a size.
#![tactic(auto)]

mod alternatives;
mod expanding;
mod rows;
mod stepping;

pub use alternatives::{PartExpansion, part_expansions};
pub use expanding::expansions;
pub use rows::Expansion;
pub use stepping::{StepOnParts, StepOnTree, for_each_expansion, for_each_variant};
