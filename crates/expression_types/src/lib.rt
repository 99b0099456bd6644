//! The types of expressions from what names stand for and which members structs have, read by the kinds of nodes and the order of their
//! parts (in `specs/`), and the law that these are the types that expressions are judged to have (ISO/IEC 9899:2011, 6.5), the contract of a
//! function that computes nothing.
#![tactic(auto)]

ghost use Rattle.expression_types.specs.Laws.{ExpressionsHaveTypes};

mod rows;

use operand_types::types_are_kept;
pub use rows::worked_types;

/// The type that is read of an expression is that of the operand that it is judged to be.
pub fn expressions_have_types()
    ensures { ExpressionsHaveTypes }
{
    types_are_kept();
}
