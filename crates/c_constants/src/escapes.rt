//! The values that the bytes of characters and texts stand for (6.4.4.4).
ghost use Rattle.std.specs.Prelude.{◌≡◌, ◌+◌, ◌≤◌, ◌<◌, ◌^◌, length, take, option_map, MatchOption};
ghost use Rattle.c_text.specs.Constants as spec;
ghost use Rattle.c_constants.specs.View.{value_view};
ghost use Rattle.c_constants.specs.Values.{value_at};

use crate::digits::{digits_len, digits_value, is_octal_digit};

/// A value of a character or a text, and how many bytes behind its first one spell it too.
#[derive(Clone, Copy, Debug, PartialEq)]
pub struct Value {
    pub byte: u8,
    pub more: usize,
}

/// What the digits of an escape of so many bytes stand for, if a byte holds it.
fn numeric_escape(base: u64, digits: &[u8], more: usize) -> Option<Value>
    requires { 0 < base }
    ensures { option_map value_view result ≡ spec.escape (spec.digits_value base digits.now) more }
{
    let value = digits_value(base, digits)?;
    let byte = byte_of(value)?;
    Some(Value { byte, more })
}

/// A value that a byte holds.
fn byte_of(value: u64) -> Option<u8>
    ensures { MatchOption result (256 ≤ value) (λ b. b ≡ value) }
{
    u8::try_from(value).ok()
}

fn hexadecimal_escape(digits: &[u8]) -> Option<Value>
    requires { length digits.now + 1 < 2 ^ 64 }
    ensures { option_map value_view result ≡ spec.hexadecimal_escape digits.now }
{
    let count = digits_len(16, digits);
    if count == 0 {
        return None;
    }
    numeric_escape(16, &digits[..count], count + 1)
}

fn octal_escape(digits: &[u8]) -> Option<Value>
    ensures { option_map value_view result
        ≡ spec.escape (spec.digits_value 8 (take (spec.octal_length digits.now) digits.now)) (spec.octal_length digits.now) }
{
    let count = digits_len(8, digits).min(3);
    numeric_escape(8, &digits[..count], count)
}

fn simple_value(letter: u8) -> Option<u8>
    ensures { result ≡ spec.simple_value letter }
{
    match letter {
        b'n' => Some(b'\n'),
        b't' => Some(b'\t'),
        b'r' => Some(b'\r'),
        b'a' => Some(7),
        b'b' => Some(8),
        b'f' => Some(12),
        b'v' => Some(11),
        b'\\' | b'\'' | b'"' | b'?' => Some(letter),
        _ => None,
    }
}

fn simple_escape(letter: u8) -> Option<Value>
    ensures { option_map value_view result ≡ option_map (λ value. record { value = value; length = 1 }) (spec.simple_value letter) }
{
    let byte = simple_value(letter)?;
    Some(Value { byte, more: 1 })
}

/// What the escape stands for whose backslash stands before these bytes.
fn escape_at(bytes: &[u8]) -> Option<Value>
    ensures { option_map value_view result ≡ spec.escape_at bytes.now }
{
    match bytes {
        [] => None,
        [first, rest @ ..] => {
            if *first == b'x' {
                hexadecimal_escape(rest)
            } else if is_octal_digit(*first) {
                octal_escape(bytes)
            } else {
                simple_escape(*first)
            }
        }
    }
}

/// Whether a byte stands for itself in a character or a text.
fn is_source_byte(byte: u8) -> bool
    ensures { result ≡ spec.is_source_byte byte }
{
    matches!(byte, b'\t' | b' '..=b'~' | 128..)
}

/// The value that begins at a byte, which these bytes follow.
pub fn value_at(byte: u8, rest: &[u8]) -> Option<Value>
    ensures { option_map value_view result ≡ value_at byte rest.now }
{
    if byte == b'\\' {
        escape_at(rest)
    } else if is_source_byte(byte) {
        Some(Value { byte, more: 0 })
    } else {
        None
    }
}
