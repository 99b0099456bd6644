//! What names stand for and what structs have at a place of a unit, in all configurations, as expressions ask for it.
#![tactic(auto)]

mod callees;
mod calls;
mod lookups;
mod members;
mod objects;
mod operands;
mod searches;
mod shadowing;
mod visible;

pub use visible::Visible;
