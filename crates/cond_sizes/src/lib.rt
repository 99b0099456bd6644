//! The sizes of arrays in all configurations at once (ISO/IEC 9899:2011, 6.7.6.2, 6.7.9). A size is a constant expression, in which no name
//! stands for anything, so it doesn't depend on what is visible. Without a size an initialiser gives the number of elements.
#![tactic(auto)]

mod elements;
mod initialisers;
mod laws;
mod sizes;
mod totals;

pub use elements::Count;
pub use initialisers::counts_by_initialiser;
pub use laws::counts_need_no_names;
pub use sizes::{count_of_tree, counts, nothing_visible};
