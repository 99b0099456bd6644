//! Where identifiers of a project's units are declared by others than before, in all configurations: told of both, by the numbers of tokens.
#![tactic(auto)]

mod otherwise;

pub use otherwise::where_bound_otherwise;
