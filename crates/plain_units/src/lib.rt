//! Units: their items, the declarators of file scope, and functions (ISO/IEC 9899:2011, 6.7, 6.7.6.3, 6.9).
#![tactic(auto)]

mod declarations;
mod functions;
mod items;
mod units;

pub use units::judge_unit;
