//! Types by their words and declarators (ISO/IEC 9899:2011, 6.7.2, 6.7.6).
#![tactic(auto)]

mod shapes;
mod types;
mod words;

pub use shapes::{entries_in, node_parts, three_parts, two_parts};
pub use types::{
    base_of, count_of_size, declared_base, has_no_size, is_character_type, judge_object,
    object_type, starred,
};
pub use words::{behind_word, entry_count, is_absence, is_gone, is_left_out, is_nothing, name_in};
