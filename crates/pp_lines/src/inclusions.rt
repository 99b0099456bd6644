//! The tokens of an `#include` line (6.10.2).
ghost use Rattle.std.specs.Prelude.{◌≡◌, map, if◌then◌else◌};
ghost use Rattle.c_text.specs.Token.{plain_token};
ghost use Rattle.c_text.specs.Directives as spec;

use crate::words::is_spelled;
use c_text::{Token, TokenKind};

fn ends_with_angle(tokens: &[Token]) -> bool
    ensures { result ≡ spec.ends_with_angle (map plain_token tokens.now) }
{
    tokens.len() > 1 && is_spelled(b">", &tokens[tokens.len() - 1])
}

/// Whether the tokens are one text alone, or `<`, tokens and a last `>`.
pub fn is_inclusion(tokens: &[Token]) -> bool
    ensures { spec.inclusion (map plain_token tokens.now) ≡ (if result then spec.include_line (map plain_token tokens.now) else spec.malformed) }
{
    match tokens {
        [] => false,
        [only] => only.kind == TokenKind::Text,
        [first, rest @ ..] => is_spelled(b"<", first) && ends_with_angle(rest),
    }
}
