//! Characters and texts (6.4.4.4, 6.4.5).
ghost use Rattle.std.specs.Prelude.{◌≡◌, length, option_map, IfOk};
ghost use Rattle.c_text.specs.Constants as spec;

use crate::escapes::value_at;
use cond_formula::NoMemory;
use std::alloc::Global;

/// What stands between the quotes.
fn inside<'a>(text: &'a [u8]) -> &'a [u8]
    ensures { result.now ≡ spec.inside text.now }
{
    match text {
        [_, inside @ .., _] => inside,
        _ => &[],
    }
}

/// The number of values that bytes between quotes stand for.
fn value_count(bytes: &[u8]) -> Option<usize>
    ensures { result ≡ option_map (λ values. length values) (spec.values_from 0 bytes.now) }
{
    let mut count = 0;
    let mut more = 0;
    for (i, byte) in bytes.iter().enumerate() {
        if more > 0 {
            more -= 1;
        } else {
            more = value_at(*byte, &bytes[i + 1..])?.more;
            count += 1;
        }
    }
    Some(count)
}

/// The values that bytes between quotes stand for.
fn values(alloc: Global, bytes: &[u8]) -> Result<Option<Vec<u8>>, NoMemory>
    ensures { IfOk result (λ values. option_map (λ v. v.items) values ≡ spec.values_from 0 bytes.now) }
{
    let mut values = Vec::new(alloc);
    let mut more = 0;
    for (i, byte) in bytes.iter().enumerate() {
        if more > 0 {
            more -= 1;
        } else {
            let Some(value) = value_at(*byte, &bytes[i + 1..]) else {
                return Ok(None);
            };
            values.push(value.byte)?;
            more = value.more;
        }
    }
    Ok(Some(values))
}

/// The bytes that a character or a text with its quotes stands for; `None` for one that the engine doesn't read. The bytes
/// at the ends are taken for quotes, whatever they are.
pub fn quoted_values(alloc: Global, text: &[u8]) -> Result<Option<Vec<u8>>, NoMemory>
    ensures { IfOk result (λ values. option_map (λ v. v.items) values ≡ spec.quoted_values text.now) }
{
    values(alloc, inside(text))
}

/// Whether a character with its quotes stands for one byte.
pub fn is_character(text: &[u8]) -> bool
    ensures { result ≡ spec.is_character text.now }
{
    match value_count(inside(text)) {
        None => false,
        Some(count) => count == 1,
    }
}

/// Whether the engine reads a text with its quotes.
pub fn is_text(text: &[u8]) -> bool
    ensures { result ≡ spec.is_text text.now }
{
    value_count(inside(text)).is_some()
}
