//! Operands of expressions: what they designate, their values, and what operators make of them (ISO/IEC 9899:2011, 6.3.2, 6.5).
#![tactic(auto)]

mod assignments;
mod boxes;
mod casts;
mod choices;
mod elements;
mod members;
mod operands;
mod operators;
mod prefixes;

pub use assignments::{Left, assignment, stepped, written_place};
pub use casts::{cast_to, unused};
pub use choices::{chosen, condition_value};
pub use elements::indexed;
pub use members::selected;
pub use operands::{
    Designation, Operand, Typed, fits_into, fitted, loaded, number_in_type, of_object, of_value,
    typed_value,
};
pub use operators::{combined, logical, operator_named};
pub use prefixes::prefixed;
