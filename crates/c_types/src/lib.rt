//! Types of C: conversions, arithmetic, how they are printed, which are compatible (ISO/IEC 9899:2011, 6.2.5, 6.2.7, 6.3.1,
//! 6.5).
#![tactic(auto)]

mod arithmetic;
mod compatibility;
mod integers;
mod laws;
mod pairs;
mod print;
mod types;

pub use arithmetic::{Arith, BinaryOp, binary};
pub use compatibility::compatible;
pub use integers::convert;
pub use laws::{a_conversion_is_the_one_value, converting_again_changes_nothing};
pub use print::print_type;
pub use types::{CType, Member, Tag, TagTable};
