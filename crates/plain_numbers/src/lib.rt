//! The numbers that a core program has for the names of its units (ISO/IEC 9899:2011, 6.2.2).
#![tactic(auto)]

mod listing;
mod numbering;
mod places;
mod texts;

pub use listing::{is_wanted, linked_in, listed};
pub use numbering::{main_number, numbered};
pub use places::{Linked, Listing};
pub use texts::Texts;
