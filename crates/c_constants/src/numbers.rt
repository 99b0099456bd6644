//! Integer constants (6.4.4.1): digits of base 8, 10 or 16, and a suffix.
ghost use Rattle.std.specs.Prelude.{◌≡◌, ◌≤◌, ◌^◌, map, length, not, ◌&&◌, ◌==◌, codes, nat_le, MatchOption};
ghost use Rattle.std.specs.List.{list_any, list_all};
ghost use Rattle.std.specs.Str.{bytes_eq};
ghost use Rattle.c_text.specs.Constants as spec;
ghost use Rattle.c_constants.specs.View.{digits_view};

use crate::digits::{are_digits_in, digits_value};

/// The largest value of a `long`.
const LONG_MAX: u64 = 9_223_372_036_854_775_807;

/// The largest value of an `unsigned long`.
const ULONG_MAX: u64 = 18_446_744_073_709_551_615;

/// The digits of a number, without what tells their base.
#[derive(Clone, Copy, Debug, PartialEq)]
struct Digits<'a> {
    base: u64,
    digits: &'a [u8],
}

fn is_suffix_letter(byte: u8) -> bool
    ensures { result ≡ spec.is_suffix_letter byte }
{
    b"uUlL".contains(&byte)
}

fn suffix_start(text: &[u8]) -> usize
    ensures run { result ≡ spec.suffix_start text.now }
    ensures within { result ≤ length text.now }
{
    for (i, byte) in text.iter().enumerate() {
        if is_suffix_letter(*byte) {
            return i;
        }
    }
    text.len()
}

fn suffix_of<'a>(text: &'a [u8]) -> &'a [u8]
    ensures { result.now ≡ spec.suffix_of text.now }
{
    &text[suffix_start(text)..]
}

fn based<'a>(text: &'a [u8]) -> Digits<'a>
    ensures { digits_view result ≡ spec.based text.now }
{
    match text {
        [b'0', b'x' | b'X', rest @ ..] => Digits {
            base: 16,
            digits: rest,
        },
        [b'0', ..] => Digits {
            base: 8,
            digits: text,
        },
        _ => Digits {
            base: 10,
            digits: text,
        },
    }
}

fn digits_of<'a>(text: &'a [u8]) -> Digits<'a>
    ensures { digits_view result ≡ spec.digits_of text.now }
{
    based(&text[..suffix_start(text)])
}

/// The suffixes of the engine's numbers.
fn suffixes() -> &'static [&'static [u8]]
    ensures { map (λ s. s.now) result.now ≡ spec.suffixes }
{
    &[
        b"", b"u", b"U", b"l", b"L", b"ul", b"uL", b"Ul", b"UL", b"lu", b"lU", b"Lu", b"LU",
    ]
}

fn is_among(word: &[u8], words: &[&[u8]]) -> bool
    ensures { result ≡ list_any (λ other. bytes_eq word.now other.now) words.now }
{
    words.iter().any(|other| word == *other)
}

fn is_suffix(suffix: &[u8]) -> bool
    ensures { result ≡ list_any (bytes_eq suffix.now) spec.suffixes }
{
    is_among(suffix, suffixes())
}

fn is_unsigned_letter(byte: u8) -> bool
    ensures { result ≡ spec.is_one_of (codes "uU") byte }
{
    b"uU".contains(&byte)
}

fn has_unsigned_letter(suffix: &[u8]) -> bool
    ensures { result ≡ list_any (spec.is_one_of (codes "uU")) suffix.now }
{
    suffix.iter().any(|byte| is_unsigned_letter(*byte))
}

/// Whether a number has `u` or `U` in its suffix, so that its type is an unsigned one.
pub fn is_unsigned(text: &[u8]) -> bool
    ensures { result ≡ spec.is_unsigned text.now }
{
    has_unsigned_letter(suffix_of(text))
}

fn is_long_letter(byte: u8) -> bool
    ensures { result ≡ spec.is_one_of (codes "lL") byte }
{
    b"lL".contains(&byte)
}

fn has_long_letter(suffix: &[u8]) -> bool
    ensures { result ≡ list_any (spec.is_one_of (codes "lL")) suffix.now }
{
    suffix.iter().any(|byte| is_long_letter(*byte))
}

/// Whether a number has `l` or `L` in its suffix.
pub fn is_long(text: &[u8]) -> bool
    ensures { result ≡ list_any (spec.is_one_of (codes "lL")) (spec.suffix_of text.now) }
{
    has_long_letter(suffix_of(text))
}

/// Whether a number is decimal.
pub fn is_decimal(text: &[u8]) -> bool
    ensures { result ≡ ((spec.digits_of text.now).base == 10) }
{
    digits_of(text).base == 10
}

/// The value of a number that the engine reads; `None` from 2^64 on. Of other bytes the contract says what is given.
pub fn number_value(text: &[u8]) -> Option<u64>
    ensures { MatchOption result (2 ^ 64 ≤ spec.number_value text.now) (λ v. v ≡ spec.number_value text.now) }
{
    let number = digits_of(text);
    digits_value(number.base, number.digits)
}

/// The largest value that one of a number's types holds.
fn largest(text: &[u8]) -> u64
    ensures { result ≡ spec.largest text.now }
{
    if digits_of(text).base == 10 && !is_unsigned(text) {
        LONG_MAX
    } else {
        ULONG_MAX
    }
}

fn has_type(text: &[u8]) -> bool
    ensures { result ≡ nat_le (spec.number_value text.now) (spec.largest text.now) }
{
    match number_value(text) {
        None => false,
        Some(value) => value <= largest(text),
    }
}

fn has_digits(number: Digits) -> bool
    ensures { result ≡ (not (length number.entry.digits.now == 0) && list_all (spec.is_digit_in number.entry.base) number.entry.digits.now) }
{
    !number.digits.is_empty() && are_digits_in(number.base, number.digits)
}

/// Whether the bytes are an integer constant that the engine reads: decimal, octal or hexadecimal digits, at most one `u`
/// and one `l` of either case behind them, and a value that one of its types holds. In time linear in the text, whatever
/// its length.
pub fn is_integer(text: &[u8]) -> bool
    ensures { result ≡ spec.is_integer text.now }
{
    is_suffix(suffix_of(text)) && has_digits(digits_of(text)) && has_type(text)
}
