//! The values of numbers, characters and texts (ISO/IEC 9899:2011, 6.4.4, 6.4.5).
#![tactic(auto)]

mod digits;
mod escapes;
mod numbers;
mod quoted;

pub use numbers::{is_decimal, is_integer, is_long, is_unsigned, number_value};
pub use quoted::{is_character, is_text, quoted_values};
