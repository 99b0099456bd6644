//! The table of the reader of a unit's tokens (ISO/IEC 9899:2011, 6.5 to 6.9): where one may stand in a node, what the next token does
//! there, and where one stands behind a part.
#![tactic(auto)]

mod backs;
mod beginnings;
mod levels;
mod moves;
mod places;
mod rows;
mod slots;
mod wordings;
mod words;

pub use backs::back;
pub use beginnings::{Beginning, NodeStart, Start};
pub use moves::{Action, Move, next_move};
pub use places::{Flavour, Naming, Place, Specified};
pub use rows::Row;
pub use slots::{Category, Role};
pub use words::{Wording, Words};
