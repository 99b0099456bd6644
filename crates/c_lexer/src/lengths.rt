//! How long the longest piece of each kind is that a text begins with (ISO/IEC 9899:2011, 6.4).
ghost use Rattle.std.specs.Prelude.{◌≡◌, ◌≢◌, ◌+◌, ◌<◌, ◌≤◌, ◌&&◌, [], ◌∷◌, nat_le, map, take, length};
ghost use Rattle.std.specs.List.{list_any};
ghost use Rattle.std.specs.Str.{bytes_eq};
ghost use Rattle.c_names.specs.Names.{is_identifier};
ghost use Rattle.c_text.specs.Constants.{begin_with_digit, is_number, is_quoted, is_open_quoted};
ghost use Rattle.c_text.specs.Pieces as spec;
ghost use Rattle.c_lexer.specs.Cuts.{AreLengths};
ghost use Rattle.c_lexer.specs.Ends.{place_of, shifted};
ghost use Rattle.c_lexer.specs.Longest.{IsLongestOf};

use crate::scans::{End, comment_end, line_len, number_len, quote_end, word_len};
use c_names::{is_digit, is_nondigit};

/// The lengths of the longest piece of a kind, and of the longest one that lacks its end.
#[derive(Clone, Copy, Debug, PartialEq, Eq)]
pub struct Lengths {
    pub closed: usize,
    pub unclosed: usize,
}

/// The length of a newline.
pub fn newline_length(text: &[u8]) -> usize
    ensures { IsLongestOf spec.is_newline text.now result }
{
    match text {
        [] => 0,
        [first, ..] => { if *first == b'\n' { 1 } else { 0 } }
    }
}

fn is_blank(byte: u8) -> bool
    ensures { result ≡ spec.is_blank (byte ∷ []) }
{
    byte == b' ' || byte == b'\t' || byte == 11 || byte == 12 || byte == b'\r'
}

/// The length of a blank.
pub fn blank_length(text: &[u8]) -> usize
    ensures { IsLongestOf spec.is_blank text.now result }
{
    match text {
        [] => 0,
        [first, ..] => { if is_blank(*first) { 1 } else { 0 } }
    }
}

/// The length of a comment that ends with its line.
pub fn line_comment_length(text: &[u8]) -> usize
    ensures { IsLongestOf spec.is_line_comment text.now result }
{
    if text.starts_with(b"//") {
        2 + line_len(&text[2..])
    } else {
        0
    }
}

/// The lengths of a piece with so many bytes before the text in which it ends.
fn lengths_to(start: usize, end: End) -> Lengths
    requires { start + place_of end ≤ 18446744073709551615 }
    ensures { AreLengths (shifted start end) result }
{
    match end {
        End::Closed(n) => Lengths {
            closed: start + n,
            unclosed: (start + n).saturating_sub(1),
        },
        End::Open(n) => Lengths {
            closed: 0,
            unclosed: start + n,
        },
    }
}

/// The lengths of a comment that ends with `*/`.
pub fn comment_lengths(text: &[u8]) -> Lengths
    ensures closed { IsLongestOf spec.is_block_comment text.now result.closed }
    ensures unclosed { IsLongestOf spec.is_open_comment text.now result.unclosed }
{
    if text.starts_with(b"/*") {
        lengths_to(2, comment_end(&text[2..]))
    } else {
        Lengths {
            closed: 0,
            unclosed: 0,
        }
    }
}

/// The length of a name or keyword.
pub fn name_length(text: &[u8]) -> usize
    ensures { IsLongestOf is_identifier text.now result }
{
    match text {
        [] => 0,
        [first, rest @ ..] => {
            if is_nondigit(*first) {
                1 + word_len(rest)
            } else {
                0
            }
        }
    }
}

/// The length of a number without a point before its digits.
fn digits_length(text: &[u8]) -> usize
    ensures { IsLongestOf begin_with_digit text.now result }
{
    match text {
        [] => 0,
        [first, rest @ ..] => {
            if is_digit(*first) {
                1 + number_len(*first, rest)
            } else {
                0
            }
        }
    }
}

/// The length of a number that has a point before so many bytes, if it has a digit there.
fn with_point(behind: usize) -> usize
    requires { behind < 18446744073709551615 }
    ensures none { behind ≡ 0 → result ≡ 0 }
    ensures some { 0 < behind → result ≡ 1 + behind }
{
    if behind == 0 { 0 } else { 1 + behind }
}

/// The length of a number (6.4.8).
pub fn number_length(text: &[u8]) -> usize
    ensures { IsLongestOf is_number text.now result }
{
    match text {
        [] => 0,
        [first, rest @ ..] => {
            if *first == b'.' {
                with_point(digits_length(rest))
            } else {
                digits_length(text)
            }
        }
    }
}

/// The lengths of a piece between two such quotes.
pub fn quoted_lengths(quote: u8, text: &[u8]) -> Lengths
    requires { quote ≢ 10 }
    ensures closed { IsLongestOf (is_quoted quote) text.now result.closed }
    ensures unclosed { IsLongestOf (is_open_quoted quote) text.now result.unclosed }
{
    match text {
        [] => Lengths {
            closed: 0,
            unclosed: 0,
        },
        [first, rest @ ..] => {
            if *first == quote {
                lengths_to(1, quote_end(quote, rest))
            } else {
                Lengths {
                    closed: 0,
                    unclosed: 0,
                }
            }
        }
    }
}

/// The punctuators (6.4.6) without digraphs.
fn punctuators() -> &'static [&'static [u8]]
    ensures { map (λ p. p.now) result.now ≡ spec.punctuators }
{
    &[
        b"[", b"]", b"(", b")", b"{", b"}", b".", b"->", b"++", b"--", b"&", b"*", b"+", b"-",
        b"~", b"!", b"/", b"%", b"<<", b">>", b"<", b">", b"<=", b">=", b"==", b"!=", b"^", b"|",
        b"&&", b"||", b"?", b":", b";", b"=", b"*=", b"/=", b"%=", b"+=", b"-=", b"<<=", b">>=",
        b"&=", b"^=", b"|=", b",", b"#", b"##", b"...",
    ]
}

fn is_among(word: &[u8], words: &[&[u8]]) -> bool
    ensures { result ≡ list_any (λ other. bytes_eq word.now other.now) words.now }
{
    words.iter().any(|other| word == *other)
}

fn is_punctuator(word: &[u8]) -> bool
    ensures { result ≡ spec.is_punctuator word.now }
{
    is_among(word, punctuators())
}

/// Whether a text begins with a punctuator of this length.
fn begins_with_punctuator(text: &[u8], n: usize) -> bool
    ensures { result ≡ (nat_le n (length text.now) && spec.is_punctuator (take n text.now)) }
{
    n <= text.len() && is_punctuator(&text[..n])
}

/// The length of a punctuator.
pub fn punctuator_length(text: &[u8]) -> usize
    ensures { IsLongestOf spec.is_punctuator text.now result }
{
    if begins_with_punctuator(text, 3) {
        3
    } else if begins_with_punctuator(text, 2) {
        2
    } else if begins_with_punctuator(text, 1) {
        1
    } else {
        0
    }
}
