//! What stands for a feature that is on.
ghost use Rattle.std.specs.Prelude.{◌≡◌, IfOk};
ghost use Rattle.c_text.specs.Token.{plain_token};
ghost use Rattle.c_text.specs.Preprocessing as spec;

use crate::sources::built_in_length;
use c_text::{BUILT_IN_FILE, Origin, Place, Token, TokenKind};
use cond_formula::NoMemory;
use std::alloc::Global;
use text_edits::Span;

/// The token that replaces a feature that is on. It stands at the end of the built-in file.
pub fn feature_token(alloc: Global) -> Result<Token, NoMemory>
    ensures { IfOk result (λ token. plain_token token ≡ spec.feature_token) }
{
    let end = built_in_length();
    let span = Span { start: end, end };
    Ok(Token {
        kind: TokenKind::Number,
        text: Vec::from_slice(alloc, b"1")?,
        joined: false,
        origin: Origin {
            file: BUILT_IN_FILE,
            span,
            place: Place::MacroBody,
            site: span,
            site_file: BUILT_IN_FILE,
        },
    })
}
