//! What the words of a file are.
ghost use Rattle.std.specs.Prelude.{◌≡◌, option_map};
ghost use Rattle.std.specs.Map.{lookup};
ghost use Rattle.std.specs.Str.{bytes_eq};
ghost use Rattle.quick_form.specs.Symbols as spec;
ghost use Rattle.quick_lexer.specs.Reserved.{reserved};
ghost use Rattle.quick_lexer.specs.View.{symbol_view};

use crate::words::{is_name, is_number};

/// A token of a file, or one of its directive lines. Names and numbers are slices of the file.
#[derive(Clone, Copy, Debug, PartialEq)]
pub enum Symbol<'a> {
    Int,
    Void,
    While,
    Return,
    Putchar,
    Main,
    /// An identifier that the file may declare.
    Name(&'a [u8]),
    /// A decimal constant.
    Number(&'a [u8]),
    /// Any other byte outside directive lines, blanks and tabs aside.
    Mark(u8),
    /// A line `#ifdef` with the name that it tests.
    Ifdef(&'a [u8]),
    Else,
    Endif,
    /// A word or a directive line that stands in no file of the form.
    Malformed,
}

/// The words with a meaning of their own.
const RESERVED: [(&[u8], Symbol<'static>); 6] = [
    (b"int", Symbol::Int),
    (b"void", Symbol::Void),
    (b"while", Symbol::While),
    (b"return", Symbol::Return),
    (b"putchar", Symbol::Putchar),
    (b"main", Symbol::Main),
];

/// The symbol of a word with a meaning of its own.
fn reserved_symbol(word: &[u8]) -> Option<Symbol<'static>>
    ensures { option_map symbol_view result ≡ lookup (bytes_eq word.now) reserved }
{
    for (spelling, symbol) in &RESERVED {
        if word == *spelling {
            return Some(*symbol);
        }
    }
    None
}

/// The symbol of a word outside directive lines.
pub fn word_symbol<'a>(word: &'a [u8]) -> Symbol<'a>
    ensures { symbol_view result ≡ spec.word_symbol word.now }
{
    if let Some(symbol) = reserved_symbol(word) {
        symbol
    } else if is_name(word) {
        Symbol::Name(word)
    } else if is_number(word) {
        Symbol::Number(word)
    } else {
        Symbol::Malformed
    }
}
