//! The first token of a list that refuses.
ghost use Rattle.std.specs.Prelude.{◌≡◌, map, drop, Some, None};
ghost use Rattle.std.specs.Option.{option_map};
ghost use Rattle.c_text.specs.Token.{plain_token};
ghost use Rattle.c_text.specs.Preprocessing as spec;
ghost use Rattle.c_text.specs.Directives.{is_word, is_predefined, is_spelled};
ghost use Rattle.unit_files.specs.Refusals.{plain_refusal};

use crate::refusals::{PpKind, Refusal, bad_kind, refusal_at};
use c_text::{BadKind, Token, TokenKind};

/// An identifier of the preprocessor: a name or a keyword.
pub fn is_word(token: &Token) -> bool
    ensures { result ≡ is_word (plain_token token.now) }
{
    matches!(token.kind, TokenKind::Name | TokenKind::Keyword)
}

/// Whether the token has these bytes.
pub fn is_spelled(text: &[u8], token: &Token) -> bool
    ensures { result ≡ is_spelled text.now (plain_token token.now) }
{
    token.text.as_slice() == text
}

/// Whether no macro may have the name, and no active token may be it.
fn is_predefined(token: &Token) -> bool
    ensures { result ≡ is_predefined (plain_token token.now) }
{
    is_spelled(b"__LINE__", token)
        || is_spelled(b"__FILE__", token)
        || is_spelled(b"__DATE__", token)
        || is_spelled(b"__TIME__", token)
        || is_spelled(b"__STDC__", token)
        || is_spelled(b"__STDC_VERSION__", token)
        || is_spelled(b"__STDC_HOSTED__", token)
        || is_spelled(b"__VA_ARGS__", token)
        || is_spelled(b"__func__", token)
        || is_spelled(b"_Pragma", token)
}

/// Why an active token is refused.
pub fn refused(token: &Token) -> Option<Refusal>
    ensures { option_map plain_refusal result ≡ spec.by_bad (plain_token token.now) (spec.bad_kind token.now.kind) }
{
    match token.kind {
        TokenKind::Bad(kind) => Some(refusal_at(bad_kind(kind), token)),
        _ if is_word(token) && is_predefined(token) => {
            Some(refusal_at(PpKind::Predefined, token))
        }
        _ => None,
    }
}

/// The first active token that is refused.
pub fn refused_token(tokens: &[Token]) -> Option<Refusal>
    ensures { option_map plain_refusal result ≡ spec.refused_token (map plain_token tokens.now) }
{
    for token in tokens {
        if let Some(refusal) = refused(token) {
            return Some(refusal);
        }
    }
    None
}

/// The same in a list of tokens that stand elsewhere.
pub fn refused_in_run(tokens: &[&Token]) -> Option<Refusal>
    ensures { option_map plain_refusal result ≡ spec.refused_token (map (λ t. plain_token t.now) tokens.now) }
{
    for token in tokens {
        if let Some(refusal) = refused(token) {
            return Some(refusal);
        }
    }
    None
}

/// The same among tokens that are ignored: only a comment that isn't closed is refused.
pub fn refused_ignored(tokens: &[Token]) -> Option<Refusal>
    ensures { option_map plain_refusal result ≡ spec.refused_ignored (map plain_token tokens.now) }
{
    for token in tokens {
        if matches!(token.kind, TokenKind::Bad(BadKind::OpenComment)) {
            return Some(refusal_at(PpKind::OpenComment, token));
        }
    }
    None
}

/// The tokens without so many of the first.
pub fn behind(tokens: &[Token], count: usize) -> &[Token]
    ensures { map plain_token result.now ≡ drop count (map plain_token tokens.now) }
{
    if count < tokens.len() {
        &tokens[count..]
    } else {
        &[]
    }
}
