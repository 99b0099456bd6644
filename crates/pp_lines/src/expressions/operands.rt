//! Operands: numbers, characters, and identifiers that are left (6.10.1).
ghost use Rattle.std.specs.Prelude.{◌≡◌, ◌^◌, pos, IfOk, nat_lt, if◌then◌else◌};
ghost use Rattle.c_text.specs.declared.token.TokenKind.TheVariants.{Name, Number};
ghost use Rattle.c_text.specs.Constants as constants;
ghost use Rattle.c_text.specs.Expressions as spec;
ghost use Rattle.pp_lines.specs.ExpressionReading.{is_operand};
ghost use Rattle.pp_lines.specs.ExpressionView.{operand_if};

use c_constants::{is_unsigned, number_value, quoted_values};
use c_text::{Token, TokenKind};
use cond_formula::NoMemory;
use std::alloc::Global;

/// The largest value of a number that may stand there.
const LARGEST: u64 = 9_223_372_036_854_775_807;

fn small_number(text: &[u8]) -> Option<i64>
    ensures { result ≡ (if nat_lt (constants.number_value text.now) (2 ^ 63) then Some (pos (constants.number_value text.now)) else None) }
{
    let value = number_value(text)?;
    if value <= LARGEST {
        Some(value as i64)
    } else {
        None
    }
}

fn number_of(text: &[u8]) -> Option<i64>
    ensures { result ≡ (if is_operand Number text.now then Some (pos (constants.number_value text.now)) else None) }
{
    if is_unsigned(text) {
        return None;
    }
    small_number(text)
}

/// A byte as a signed one.
fn signed_byte(byte: u8) -> i64
    ensures { result ≡ spec.signed_byte byte }
{
    if byte >= 128 {
        byte as i64 - 256
    } else {
        byte as i64
    }
}

fn byte_value(bytes: &[u8]) -> i64
    ensures { result ≡ spec.character_value (Some bytes.now) }
{
    match bytes {
        [byte] => signed_byte(*byte),
        _ => 0,
    }
}

fn character_of(alloc: Global, text: &[u8]) -> Result<i64, NoMemory>
    ensures { IfOk result (λ z. z ≡ spec.character_value (constants.quoted_values text.now)) }
{
    let values = quoted_values(alloc, text)?;
    match values {
        Some(bytes) => Ok(byte_value(bytes.as_slice())),
        None => Ok(0),
    }
}

fn name_of(text: &[u8]) -> Option<i64>
    ensures { result ≡ (if is_operand Name text.now then Some (pos 0) else None) }
{
    if text == b"defined".as_slice() {
        None
    } else {
        Some(0)
    }
}

/// The value of a token that stands as an operand, if it may. A character is its byte as a signed one; a name or keyword
/// that is left is 0, but for `defined`, which the engine refuses.
pub fn operand_of(alloc: Global, token: &Token) -> Result<Option<i64>, NoMemory>
    ensures { IfOk result (λ v. v ≡ operand_if token.now.kind token.now.text.items) }
{
    let text = token.text.as_slice();
    match token.kind {
        TokenKind::Number => Ok(number_of(text)),
        TokenKind::Character => {
            let value = character_of(alloc, text)?;
            Ok(Some(value))
        }
        TokenKind::Name => Ok(name_of(text)),
        TokenKind::Keyword => Ok(Some(0)),
        _ => Ok(None),
    }
}
