//! What the bytes of a file of the quick form spell: words, pieces of a line, symbols and directive lines, and a file
//! with one name made another. Nothing here copies or allocates but for the renamed file.
#![tactic(auto)]

mod lines;
mod pieces;
mod renaming;
mod symbols;
mod words;

pub use lines::{directive, first_symbol};
pub use pieces::{Piece, first_piece, first_solid_piece};
pub use renaming::{push_renamed_line, renamed};
pub use symbols::{Symbol, word_symbol};
pub use words::{is_blank, is_name, is_number};
