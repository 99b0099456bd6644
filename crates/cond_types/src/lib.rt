//! What the units of a project are by their types, with the names of file scope that their expressions use, in all configurations at once
//! (ISO/IEC 9899:2011, 6.2 to 6.9).
#![tactic(auto)]

mod beginnings;
mod blocks;
mod definitions;
mod elaboration;
mod ends;
mod functions;
mod heads;
mod items;
mod kinds;
mod leaving;
mod left_names;
mod linking;
mod parts;
mod questions;
mod sizes;
mod typing;
mod units;
mod uses;

pub use definitions::define_function;
pub use elaboration::{where_not_elaborated, where_typed_not_elaborated};
pub use items::UnitItems;
pub use linking::{CondLinks, links};
pub use typing::{CondTypes, types};
pub use units::{TypedUnit, TypedUnits, declare_units};
