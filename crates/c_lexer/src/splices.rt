//! A text without its splices (ISO/IEC 9899:2011, 5.1.1.2, phase 2).
ghost use Rattle.std.specs.Prelude.{◌≡◌, ◌<◌, ◌≤◌, map, length, IfOk};
ghost use Rattle.c_text.specs.Splices as spec;

use cond_formula::NoMemory;
use std::alloc::Global;

/// The bytes of a text that stay once its splices are gone.
#[derive(Debug, Drop)]
pub struct TextBytes {
    pub bytes: Vec<u8>,
    /// Where they stand in the text.
    pub places: Vec<u32>,
}

/// The length of the splice that a text begins with, or 0.
fn splice_length(text: &[u8]) -> usize
    ensures { result ≡ spec.splice_length text.now }
{
    if text.starts_with(b"\\\n") {
        2
    } else if text.starts_with(b"\\\r\n") {
        3
    } else {
        0
    }
}

/// How many bytes go at the front of a text, where so many of a splice are to go.
fn gone_at(more: usize, text: &[u8]) -> usize
    ensures splice { more ≡ 0 → result ≡ spec.splice_length text.now }
    ensures rest { 0 < more → result ≡ more }
{
    if more > 0 { more } else { splice_length(text) }
}

/// A text without its splices. In time linear in the text.
pub fn spliced(alloc: Global, text: &[u8]) -> Result<TextBytes, NoMemory>
    requires { length text.now ≤ 4294967295 }
    ensures bytes { IfOk result (λ s. s.bytes.items ≡ spec.bytes_of (spec.spliced text.now)) }
    ensures places { IfOk result (λ s. s.places.items ≡ map (λ p. p.at) (spec.spliced text.now)) }
{
    let mut bytes = Vec::new(alloc);
    let mut places = Vec::new(alloc);
    let mut more = 0;
    for (i, byte) in text.iter().enumerate() {
        let gone = gone_at(more, &text[i..]);
        if gone == 0 {
            bytes.push(*byte)?;
            places.push(i as u32)?;
            more = 0;
        } else {
            more = gone - 1;
        }
    }
    Ok(TextBytes { bytes, places })
}
