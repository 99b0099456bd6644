//! Digits of base 8, 10 and 16, and the numbers that they write.
ghost use Rattle.std.specs.Prelude.{◌≡◌, ◌+◌, ◌*◌, ◌≤◌, ◌<◌, ◌^◌, length, MatchOption};
ghost use Rattle.std.specs.List.{list_all};
ghost use Rattle.c_text.specs.Constants as spec;

use c_names::is_digit;

pub fn is_octal_digit(byte: u8) -> bool
    ensures { result ≡ spec.is_octal_digit byte }
{
    matches!(byte, b'0'..=b'7')
}

fn is_lower_hexadecimal(byte: u8) -> bool
    ensures { result ≡ spec.is_lower_hexadecimal byte }
{
    matches!(byte, b'a'..=b'f')
}

fn is_upper_hexadecimal(byte: u8) -> bool
    ensures { result ≡ spec.is_upper_hexadecimal byte }
{
    matches!(byte, b'A'..=b'F')
}

fn is_hexadecimal_digit(byte: u8) -> bool
    ensures { result ≡ spec.is_hexadecimal_digit byte }
{
    is_digit(byte) || is_lower_hexadecimal(byte) || is_upper_hexadecimal(byte)
}

fn is_digit_in(base: u64, byte: u8) -> bool
    ensures { result ≡ spec.is_digit_in base byte }
{
    if base == 16 {
        is_hexadecimal_digit(byte)
    } else if base == 8 {
        is_octal_digit(byte)
    } else {
        is_digit(byte)
    }
}

pub fn are_digits_in(base: u64, bytes: &[u8]) -> bool
    ensures { result ≡ list_all (spec.is_digit_in base) bytes.now }
{
    bytes.iter().all(|byte| is_digit_in(base, *byte))
}

/// How many digits of a base the bytes begin with.
pub fn digits_len(base: u64, bytes: &[u8]) -> usize
    ensures run { result ≡ spec.run_length (spec.is_digit_in base) bytes.now }
    ensures within { result ≤ length bytes.now }
{
    for (i, byte) in bytes.iter().enumerate() {
        if !is_digit_in(base, *byte) {
            return i;
        }
    }
    bytes.len()
}

/// The value of a digit of any base; of other bytes what the contract says.
fn digit_value(byte: u8) -> u8
    ensures { result ≡ spec.digit_value byte }
{
    if is_digit(byte) {
        byte.saturating_sub(b'0')
    } else if is_lower_hexadecimal(byte) {
        byte.saturating_sub(b'a' - 10)
    } else {
        byte.saturating_sub(b'A' - 10)
    }
}

/// The number that one more digit makes of a number; `None` from 2^64 on.
fn with_digit(base: u64, value: u64, digit: u8) -> Option<u64>
    ensures { MatchOption result (2 ^ 64 ≤ base * value + spec.digit_value digit)
        (λ v. v ≡ base * value + spec.digit_value digit) }
{
    let front = base.checked_mul(value)?;
    front.checked_add(u64::from(digit_value(digit)))
}

/// The number that digits write; `None` from 2^64 on.
pub fn digits_value(base: u64, digits: &[u8]) -> Option<u64>
    requires { 0 < base }
    ensures { MatchOption result (2 ^ 64 ≤ spec.digits_value base digits.now)
        (λ v. v ≡ spec.digits_value base digits.now) }
{
    let mut value = 0;
    for digit in digits {
        value = with_digit(base, value, *digit)?;
    }
    Some(value)
}
