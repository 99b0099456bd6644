//! Bytes as a field of a line spells them.
ghost use Rattle.std.specs.Prelude.{◌≡◌, ◌<◌, ℕ, List, ◌∷◌, ◌++◌, Some, IfOk, option_map};
ghost use Rattle.vector_cases.specs.Fields as spec;

use crate::fields::LineError;
use std::alloc::Global;

/// Where the reading of an escape stands.
#[derive(Clone, Copy, Debug)]
enum Escape {
    /// Outside an escape.
    Outside,
    /// After the backslash.
    Begun,
    /// After `\x`.
    Hexadecimal,
    /// After `\x` and a digit of this value.
    Digit(u8),
}

/// The value of a hexadecimal digit.
fn digit_value(byte: u8) -> Result<u8, LineError>
    ensures value { IfOk result (λ value. spec.digit byte ≡ Some value) }
    ensures small { IfOk result (λ value. value < 16) }
{
    match byte {
        b'0'..=b'9' => Ok(byte - b'0'),
        b'A'..=b'F' => Ok(byte - b'A' + 10),
        _ => Err(LineError::BadEscape),
    }
}

/// The byte that the letter after a backslash stands for.
fn letter_value(letter: u8) -> Result<u8, LineError>
    ensures { IfOk result (λ value. spec.letter letter ≡ Some value) }
{
    match letter {
        b'n' => Ok(b'\n'),
        b't' => Ok(b'\t'),
        b'r' => Ok(b'\r'),
        b'\\' => Ok(b'\\'),
        _ => Err(LineError::BadEscape),
    }
}

/// Reads one byte of a field. Pushes the byte that ends with it, if one does.
fn step(escape: Escape, byte: u8, bytes: &mut Vec<u8>) -> Result<Escape, LineError>
    requires { spec.IsDigit escape }
    ensures digit { IfOk result spec.IsDigit }
    ensures reads { IfOk result (λ new. (field : List ℕ) → option_map (λ said. bytes.old.items ++ said) (spec.goes_on escape (byte ∷ field)) ≡ option_map (λ said. bytes.new.items ++ said) (spec.goes_on new field)) }
{
    match escape {
        Escape::Outside if byte == b'\\' => return Ok(Escape::Begun),
        Escape::Begun if byte == b'x' => return Ok(Escape::Hexadecimal),
        Escape::Hexadecimal => return Ok(Escape::Digit(digit_value(byte)?)),
        Escape::Outside => bytes.push(byte)?,
        Escape::Begun => bytes.push(letter_value(byte)?)?,
        Escape::Digit(high) => bytes.push(high * 16 + digit_value(byte)?)?,
    }
    Ok(Escape::Outside)
}

/// The bytes that a field stands for.
pub(crate) fn unescaped(alloc: Global, field: &str) -> Result<Vec<u8>, LineError>
    ensures { IfOk result (λ said. spec.unescaped field.now ≡ Some said.items) }
{
    let mut bytes = Vec::new(alloc);
    let mut escape = Escape::Outside;
    for byte in field.as_bytes() {
        escape = step(escape, *byte, &mut bytes)?;
    }
    match escape {
        Escape::Outside => Ok(bytes),
        _ => Err(LineError::BadEscape),
    }
}
