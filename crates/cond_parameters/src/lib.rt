//! The parameters that lists declare, in all configurations at once (ISO/IEC 9899:2011, 6.7.6.3). What a parameter declares is said by the
//! definitions of one configuration, in any scope that the tables follow.
#![tactic(auto)]

mod bases;
mod declarators;
mod found;
mod lists;
mod trees;
mod walks;

pub use lists::declare_parameters;
pub use walks::DeclaredParameters;
