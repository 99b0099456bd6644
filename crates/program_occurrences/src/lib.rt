//! The identifiers of a program's units, each with the one that declares it, and which tokens of files mean one thing in it
//! (ISO/IEC 9899:2011, 6.2.1 to 6.2.3, 6.2.7). Here are the definitions (in `specs/`) and their laws, the contracts of functions
//! without a body.
#![tactic(auto)]

mod laws;
mod rows;

pub use laws::{
    declarations_are_occurrences, identifiers_are_bound, occurrences_are_bound, tokens_bring_back,
    units_of_programs_are_judged,
};
pub use rows::{worked_class, worked_rows};
