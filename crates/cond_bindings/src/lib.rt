//! What the identifiers of a unit are bound to in all configurations at once (ISO/IEC 9899:2011, 6.2.1 to 6.2.3).
#![tactic(auto)]

mod declarations;
mod locals;
mod name_uses;
mod names;
mod occurrences;
mod undeclared;
mod unit_bindings;

pub use names::Names;
pub use occurrences::{Occurrence, Scope};
pub use unit_bindings::{CondBindings, Declaration, FileUse, Identifier, Meaning, UnitBindings};
