//! What one token of a directive line is.
ghost use Rattle.std.specs.Prelude.{◌≡◌, map};
ghost use Rattle.std.specs.List.{list_any};
ghost use Rattle.c_text.specs.Token.{plain_token};
ghost use Rattle.c_text.specs.Directives as spec;

use c_text::{Token, TokenKind};

/// Whether the token has these bytes.
pub fn is_spelled(text: &[u8], token: &Token) -> bool
    ensures { result ≡ spec.is_spelled text.now (plain_token token.now) }
{
    token.text.as_slice() == text
}

/// An identifier of the preprocessor: a name or a keyword.
pub fn is_word(token: &Token) -> bool
    ensures { result ≡ spec.is_word (plain_token token.now) }
{
    matches!(token.kind, TokenKind::Name | TokenKind::Keyword)
}

fn is_macro_of_implementation(token: &Token) -> bool
    ensures { result ≡ spec.is_predefined (plain_token token.now) }
{
    is_spelled(b"__LINE__", token)
        || is_spelled(b"__FILE__", token)
        || is_spelled(b"__DATE__", token)
        || is_spelled(b"__TIME__", token)
        || is_spelled(b"__STDC__", token)
        || is_spelled(b"__STDC_VERSION__", token)
        || is_spelled(b"__STDC_HOSTED__", token)
        || is_spelled(b"__VA_ARGS__", token)
        || is_spelled(b"__func__", token)
        || is_spelled(b"_Pragma", token)
}

/// Whether the token is a name that no macro may have, whatever is defined.
pub fn is_fixed_name(token: &Token) -> bool
    ensures { result ≡ spec.is_fixed_name (plain_token token.now) }
{
    token.kind == TokenKind::Keyword
        || is_spelled(b"defined", token)
        || is_macro_of_implementation(token)
}

fn is_barred(token: &Token) -> bool
    ensures { result ≡ spec.is_barred (plain_token token.now) }
{
    is_spelled(b"#", token) || is_spelled(b"##", token) || is_spelled(b"...", token)
}

/// Whether a token stands among them that no macro's body may hold.
pub fn has_barred(tokens: &[Token]) -> bool
    ensures { result ≡ list_any spec.is_barred (map plain_token tokens.now) }
{
    for token in tokens {
        if is_barred(token) {
            return true;
        }
    }
    false
}
