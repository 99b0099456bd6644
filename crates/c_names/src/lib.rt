//! The words of C: identifiers, keywords, and names that are good for something new
//! (ISO/IEC 9899:2011, 6.4.1, 6.4.2); and the names of files.
#![tactic(auto)]

mod file_names;
mod names;

pub use file_names::is_file_name;
pub use names::{is_digit, is_identifier, is_keyword, is_new_name, is_nondigit, is_word_byte};
