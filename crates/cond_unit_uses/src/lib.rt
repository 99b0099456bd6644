//! The uses of members in units, in all configurations at once (ISO/IEC 9899:2011, 6.5.2.3, 6.9).
#![tactic(auto)]

mod blocks;
mod definitions;
mod items;
mod parts;
mod units;
mod variants;

pub use items::note_items;
pub use units::{UnitUses, note_units};
