//! Lists of declarators in all configurations: which declarators there are, and which initialiser each has, where commas, declarators and
//! initialisers may be there or not (ISO/IEC 9899:2011, 6.7).
#![tactic(auto)]

mod beginnings;
mod initialised;
mod items;
mod listed;
mod stepping;

pub use items::{ListEntry, entries};
pub use listed::{ListedDeclarator, listed_declarators};
pub use stepping::{StepOnDeclarator, for_each_declarator};
