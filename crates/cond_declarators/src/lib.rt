//! The types that declarations give names, in all configurations at once: by their words and by their declarators (ISO/IEC 9899:2011, 6.7.2,
//! 6.7.6). What a word or declarator names is said by the definitions of one configuration, in any scope that the tables follow.
#![tactic(auto)]

mod bases;
mod declaring;
mod elements;
mod laws;
mod objects;
mod shown;

pub use bases::base_of;
pub use declaring::declared_base;
pub use laws::types_are_there;
pub use objects::object_types;
