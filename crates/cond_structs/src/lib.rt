//! Definitions of structs in all configurations at once (ISO/IEC 9899:2011, 6.7.2.1): their members declaration by declaration, each where
//! it is there, so that members that may be there or not aren't multiplied.
#![tactic(auto)]

mod collecting;
mod declaring;
mod defining;
mod laws;
mod listing;
mod reading;

pub use defining::define_struct;
pub use laws::declarations_are_read;
