//! The tests of an expression whether a macro is defined (6.10.1).
ghost use Rattle.std.specs.Prelude.{◌≡◌, map};
ghost use Rattle.std.specs.Option.{option_map};
ghost use Rattle.c_text.specs.Token.{plain_token};
ghost use Rattle.c_text.specs.Preprocessing as spec;
ghost use Rattle.unit_files.specs.Tests.{plain_test};

use crate::bad_tokens::{is_spelled, is_word};
use c_text::Token;

/// A test, and how many tokens it has behind `defined`.
#[derive(Clone, Copy)]
pub struct Test<'a> {
    pub name: &'a Token,
    pub length: usize,
}

fn test_of(name: &Token, length: usize) -> Option<Test<'_>>
    ensures { option_map plain_test result ≡ spec.test_of (plain_token name.now) length }
{
    if is_word(name) {
        Some(Test { name, length })
    } else {
        None
    }
}

/// The test behind a `defined`.
pub fn test_behind(tokens: &[Token]) -> Option<Test<'_>>
    ensures { option_map plain_test result ≡ spec.test_at (map plain_token tokens.now) }
{
    match tokens {
        [] => None,
        [first, name, last, ..] if is_spelled(b"(", first) && is_spelled(b")", last) => {
            test_of(name, 3)
        }
        [name, ..] => test_of(name, 1),
    }
}
