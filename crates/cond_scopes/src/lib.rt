//! What the identifiers of all units are bound to, in all configurations at once: one walk over the trees with alternatives, in which each
//! block is entered and left once.
#![tactic(auto)]

mod names_read;
mod parts;
mod paths;
mod roles;
mod units;

pub use units::scopes;
