//! The words of the quick form: names and decimal constants (ISO/IEC 9899:2011, 6.4.2, 6.4.4.1).
ghost use Rattle.std.specs.Prelude.{◌≡◌, nat_le};
ghost use Rattle.std.specs.List.{list_all};
ghost use Rattle.quick_form.specs.Words as spec;

use c_names::{is_digit, is_identifier, is_keyword};

/// The largest value of an `int` of 32 bits.
const INT_MAX: u64 = 2_147_483_647;

/// Whether a byte is a blank or a tab.
pub fn is_blank(byte: u8) -> bool
    ensures { result ≡ spec.is_blank byte }
{
    byte == b' ' || byte == b'\t'
}

fn are_digits(bytes: &[u8]) -> bool
    ensures { result ≡ list_all spec.is_digit bytes.now }
{
    bytes.iter().all(|byte| is_digit(*byte))
}

fn is_decimal(word: &[u8]) -> bool
    ensures { result ≡ spec.is_decimal word.now }
{
    match word {
        [] => false,
        [only] => is_digit(*only),
        [first, ..] => *first != b'0' && are_digits(word),
    }
}

/// Whether the number that the digits write is the value of some `int`.
fn fits_int(digits: &[u8]) -> bool
    ensures { result ≡ nat_le (spec.value_of digits.now) 2147483647 }
{
    let mut value = 0;
    for digit in digits {
        value = 10 * value + u64::from(digit.saturating_sub(b'0'));
        if value > INT_MAX {
            return false;
        }
    }
    true
}

/// Whether a word is a decimal constant without leading zeros that an `int` of 32 bits holds (6.4.4.1). In time linear in
/// the word, whatever its length.
pub fn is_number(word: &[u8]) -> bool
    ensures { result ≡ spec.is_number word.now }
{
    is_decimal(word) && fits_int(word)
}

/// Whether a word is an identifier (6.4.2) that a file of the form may declare: no keyword, nor `putchar`, nor `main`.
pub fn is_name(word: &[u8]) -> bool
    ensures { result ≡ spec.is_name word.now }
{
    is_identifier(word)
        && !is_keyword(word)
        && word != b"putchar".as_slice()
        && word != b"main".as_slice()
}
