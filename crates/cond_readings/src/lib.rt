//! The reading of a unit in all configurations at once: its macros, its tokens, and where it is refused (ISO/IEC 9899:2011,
//! 6.10). Seen in a configuration it is the reading of that configuration, and each step here is there the step of the definition.
#![tactic(auto)]

mod directives;
mod questions;
mod readings;
mod refusals;
mod tests;

pub use directives::read_directive;
pub use readings::CondReading;
pub use refusals::{is_refused, refuse, refuse_ignored, refuse_in_run};
pub use tests::tests_replaced;
