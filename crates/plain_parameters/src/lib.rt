//! Declarations of parameters (ISO/IEC 9899:2011, 6.7.6.3).
#![tactic(auto)]

mod parameters;

pub use parameters::{Parameter, declared_parameters, enter_parameter};
