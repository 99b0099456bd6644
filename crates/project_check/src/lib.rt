//! Whether all products of a project are accepted, and the least that isn't with the stage of translation that refuses it
//! (ISO/IEC 9899:2011, 5.1.1.2): all configurations are translated at once, and one question is asked of all of them.
#![tactic(auto)]

mod broken;
mod checking;
mod forests;
mod outcomes;
mod unit_forests;

pub use broken::where_parsed_broken;
pub use checking::check;
pub use forests::{ParsedUnits, parse_units};
pub use outcomes::CheckOutcome;
