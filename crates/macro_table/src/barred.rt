//! What no macro may be, whatever is defined.
ghost use Rattle.std.specs.Prelude.{◌≡◌, map};
ghost use Rattle.std.specs.List.{list_any};
ghost use Rattle.std.specs.Str.{bytes_eq};
ghost use Rattle.c_text.specs.Token.{plain_token};
ghost use Rattle.c_text.specs.Directives as spec;
ghost use Rattle.c_text.specs.PlainMacros.{plain_macro};
ghost use Rattle.macro_table.specs.MacroTables.{is_barred_name, is_barred_macro};

use c_names::is_keyword;
use c_text::{Macro, Token};

/// The names that the language defines itself (6.10.8), and those that it reads in its own way (6.10.3, 6.10.9, 6.4.2.2).
fn predefined_names() -> &'static [&'static [u8]]
    ensures { map (λ name. name.now) result.now ≡ spec.predefined_names }
{
    &[
        b"__LINE__",
        b"__FILE__",
        b"__DATE__",
        b"__TIME__",
        b"__STDC__",
        b"__STDC_VERSION__",
        b"__STDC_HOSTED__",
        b"__VA_ARGS__",
        b"__func__",
        b"_Pragma",
    ]
}

fn is_listed(names: &[&[u8]], name: &[u8]) -> bool
    ensures { result ≡ list_any (bytes_eq name.now) (map (λ other. other.now) names.now) }
{
    for other in names {
        if name == *other {
            return true;
        }
    }
    false
}

fn is_predefined(name: &[u8]) -> bool
    ensures { result ≡ list_any (bytes_eq name.now) spec.predefined_names }
{
    is_listed(predefined_names(), name)
}

/// Whether no macro may have this name.
pub fn is_barred_name(name: &[u8]) -> bool
    ensures { result ≡ is_barred_name name.now }
{
    is_keyword(name) || name == b"defined".as_slice() || is_predefined(name)
}

fn is_barred_token(token: &Token) -> bool
    ensures { result ≡ spec.is_barred (plain_token token.now) }
{
    let text = token.text.as_slice();
    text == b"#".as_slice() || text == b"##".as_slice() || text == b"...".as_slice()
}

fn has_barred_token(tokens: &[Token]) -> bool
    ensures { result ≡ list_any spec.is_barred (map plain_token tokens.now) }
{
    for token in tokens {
        if is_barred_token(token) {
            return true;
        }
    }
    false
}

fn is_among(names: &[Vec<u8>], name: &[u8]) -> bool
    ensures { result ≡ list_any (bytes_eq name.now) (map (λ n. n.items) names.now) }
{
    for other in names {
        if name == other.as_slice() {
            return true;
        }
    }
    false
}

fn has_repetition(names: &[Vec<u8>]) -> bool
    ensures { result ≡ spec.has_repetition (map (λ n. n.items) names.now) }
{
    for (i, name) in names.iter().enumerate() {
        let (_, others) = names.split_at(i + 1);
        if is_among(others, name.as_slice()) {
            return true;
        }
    }
    false
}

/// Whether no `#define` may give this macro.
pub fn is_barred_macro(m: &Macro) -> bool
    ensures { result ≡ is_barred_macro (plain_macro m.now) }
{
    if is_barred_name(m.name.as_slice()) || has_barred_token(m.body.as_slice()) {
        return true;
    }
    match &m.params {
        None => false,
        Some(names) => has_repetition(names.as_slice()),
    }
}
