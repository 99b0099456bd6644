//! What units leave for linking, and linking (ISO/IEC 9899:2011, 6.2.2, 6.9).
#![tactic(auto)]

mod agreement;
mod availability;
mod built_in;
mod declarations;
mod definitions;
mod duplicates;
mod left;
mod linking;
mod mains;
mod order;

pub use availability::is_available;
pub use built_in::built_in_named;
pub use definitions::{Defined, Definite, Definitions};
pub use left::Left;
pub use linking::link;
