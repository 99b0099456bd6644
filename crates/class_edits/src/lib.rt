//! The renaming of a reference class in the files of a project (ISO/IEC 9899:2011, 5.1.1.2, 6.2.1): from a list of its tokens to the
//! edits and the files that they make, and which token a place of a file stands for.
#![tactic(auto)]

mod edits;
mod laws;
mod places;
mod renaming;
#[cfg(test)]
mod tests;

pub use edits::edits_of;
pub use laws::{
    bytes_tell_tokens, listed_are_renamed, listed_classes_are_renamed, listed_stand_apart,
};
pub use places::{name_at, token_at};
pub use renaming::{RenamedCount, count_renamed, renamed};
