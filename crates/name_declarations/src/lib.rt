//! Names that are declared at file scope, in all configurations at once: a declaration has to agree with what the name stands for where it is
//! declared already, in type and in linkage (ISO/IEC 9899:2011, 6.2.2, 6.2.7, 6.7).
#![tactic(auto)]

mod conflicts;
mod names;
mod sorts;

pub use names::{declare_as, where_no_such_function};
