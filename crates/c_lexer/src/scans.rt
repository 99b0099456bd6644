//! How far words, lines, numbers, comments and quoted pieces go on.
ghost use Rattle.std.specs.Prelude.{◌≡◌, ◌==◌, ◌≤◌, not, length, false};
ghost use Rattle.std.specs.List.{prefix_len};
ghost use Rattle.c_names.specs.Names as names;
ghost use Rattle.c_lexer.specs.Ends.{place_of};
ghost use Rattle.c_lexer.specs.Scans as spec;

use c_names::is_word_byte;

/// Where a comment or a quoted piece ends.
#[derive(Clone, Copy, Debug, PartialEq, Eq)]
pub enum End {
    /// Behind its closing bytes.
    Closed(usize),
    /// Before a newline, or at the end of the text: nothing closes it.
    Open(usize),
}

/// How many letters, digits and `_` a text begins with.
pub fn word_len(text: &[u8]) -> usize
    ensures run { result ≡ prefix_len names.is_word_byte text.now }
    ensures within { result ≤ length text.now }
{
    for (i, byte) in text.iter().enumerate() {
        if !is_word_byte(*byte) {
            return i;
        }
    }
    text.len()
}

/// How many bytes stand before the first newline.
pub fn line_len(text: &[u8]) -> usize
    ensures run { result ≡ prefix_len (λ b. not (b == 10)) text.now }
    ensures within { result ≤ length text.now }
{
    for (i, byte) in text.iter().enumerate() {
        if *byte == b'\n' {
            return i;
        }
    }
    text.len()
}

/// Whether a number goes on with a byte behind another of its bytes (6.4.8).
fn go_on(last: u8, byte: u8) -> bool
    ensures { result ≡ spec.go_on last byte }
{
    let is_sign = byte == b'+' || byte == b'-';
    let is_exponent = last == b'e' || last == b'E' || last == b'p' || last == b'P';
    is_word_byte(byte) || byte == b'.' || (is_sign && is_exponent)
}

/// How many bytes of a text go on with a number, whose byte before the text is given.
pub fn number_len(first: u8, text: &[u8]) -> usize
    ensures run { result ≡ spec.number_from first 0 text.now }
    ensures within { result ≤ length text.now }
{
    let mut last = first;
    for (i, byte) in text.iter().enumerate() {
        if !go_on(last, *byte) {
            return i;
        }
        last = *byte;
    }
    text.len()
}

/// The end of a comment, in the text behind its `/*`.
pub fn comment_end(text: &[u8]) -> End
    ensures run { result ≡ spec.comment_from false 0 text.now }
    ensures within { place_of result ≤ length text.now }
{
    let mut star = false;
    for (i, byte) in text.iter().enumerate() {
        if star && *byte == b'/' {
            return End::Closed(i + 1);
        }
        star = *byte == b'*';
    }
    End::Open(text.len())
}

/// The end of a quoted piece, in the text behind its first quote.
pub fn quote_end(quote: u8, text: &[u8]) -> End
    ensures run { result ≡ spec.quote_from quote false 0 text.now }
    ensures within { place_of result ≤ length text.now }
{
    let mut escaped = false;
    for (i, byte) in text.iter().enumerate() {
        if *byte == b'\n' {
            return End::Open(i);
        }
        if !escaped && *byte == quote {
            return End::Closed(i + 1);
        }
        escaped = !escaped && *byte == b'\\';
    }
    End::Open(text.len())
}
