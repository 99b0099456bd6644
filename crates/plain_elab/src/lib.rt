//! The core program of units, or their first refusal (ISO/IEC 9899:2011, 6.2, 6.3, 6.5 to 6.9).
#![tactic(auto)]

mod collecting;
mod elaboration;
mod judging;

pub use elaboration::elaborate;
