//! Lists under conditions while they are replaced: the calls that are open in them, their arguments, and what lists become (ISO/IEC
//! 9899:2011, 6.10.3).
#![tactic(auto)]

mod arguments;
mod calls;
mod finished;
mod runs;

pub use arguments::{Fitting, all_fitting, copied_functions};
pub use calls::{Call, all_arguments};
pub use finished::Finished;
pub use runs::Run;
