//! Preprocessing tokens of C with their origins (ISO/IEC 9899:2011, 6.4).
#![tactic(auto)]

mod line;
mod macros;
mod origin;
mod token;

pub use line::Line;
pub use macros::Macro;
pub use origin::{BUILT_IN_FILE, FileToken, Origin, Place};
pub use token::{BadKind, Token, TokenKind};
