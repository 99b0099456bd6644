//! What directive lines say: the forms of directives and of macro definitions, and the values of
//! `#if` expressions (ISO/IEC 9899:2011, 6.10).
#![tactic(auto)]

mod copies;
mod definitions;
mod directives;
mod expressions;
mod forms;
mod inclusions;
mod laws;
mod parameters;
mod words;

pub use directives::directive;
pub use expressions::{ExpressionReader, Value, evaluate};
pub use forms::Directive;
pub use laws::{values_are_decided, values_are_one, values_are_read};
