//! The pieces of a text of C, white space, comments and preprocessing tokens, and its lines (ISO/IEC 9899:2011, 5.1.1.2, phases 2 and 3, and 6.4).
#![tactic(auto)]

mod classes;
mod laws;
mod lengths;
mod lines;
mod pieces;
mod reader;
mod scans;
mod spans;
mod splices;

pub use laws::{lines_are_one, texts_have_lines};
pub use lines::lex;
pub use pieces::{Piece, PieceKind, longest_piece};
pub use splices::{TextBytes, spliced};
