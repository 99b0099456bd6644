//! The renaming of the reference class at a place of a project (ISO/IEC 9899:2011, 5.1.1.2, 6.2.1): what there is to rename, what stands in
//! the way in all configurations, or which tokens get the new name.
#![tactic(auto)]

mod analysed;
mod asked;
mod breaking;
mod captures;
mod operation;
mod outcomes;

pub use operation::rename;
pub use outcomes::{Outcome, Precondition, Unhindered};
