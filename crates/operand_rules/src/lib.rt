//! What operators make of the types of their operands, each as a function of these types alone, whatever the operands compute
//! (ISO/IEC 9899:2011, 6.3.2, 6.5).
#![tactic(auto)]

mod assignments;
mod casts;
mod choices;
mod combinations;
mod conditions;
mod elements;
mod operands;
mod prefixes;
mod structs;
mod values;

pub use assignments::{assigned, stepped};
pub use casts::cast;
pub use choices::chosen;
pub use combinations::combined;
pub use conditions::{fitted, tested};
pub use elements::indexed;
pub use operands::{Category, Judged, OperandType, Refused};
pub use prefixes::prefixed;
pub use values::loaded;
