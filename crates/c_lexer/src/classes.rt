//! The longest piece that a text begins with, and the class that it belongs to.
ghost use Rattle.std.specs.Prelude.{◌≡◌, ◌<◌, ◌≤◌, max, length};
ghost use Rattle.c_lexer.specs.Best.{IsBest};
ghost use Rattle.c_text.specs.Pieces as spec;

use crate::lengths::{
    blank_length, comment_lengths, line_comment_length, name_length, newline_length, number_length,
    punctuator_length, quoted_lengths,
};

/// The classes of pieces; a piece that belongs to several is of the first of them.
#[derive(Clone, Copy, Debug, PartialEq, Eq)]
pub enum Class {
    Newline,
    Space,
    Name,
    Number,
    Character,
    Text,
    Punctuator,
    OpenComment,
    OpenQuote,
    Byte,
}

/// The longest piece so far, and its class.
#[derive(Clone, Copy, Debug, PartialEq, Eq)]
pub struct Best {
    pub length: usize,
    pub class: Class,
}

fn longer(one: usize, other: usize) -> usize
    ensures { result ≡ max one other }
{
    if one <= other { other } else { one }
}

/// The better of a piece and one of an earlier class, which is better where they are as long.
fn better(best: Best, length: usize, class: Class) -> Best
    ensures longer { best.length ≤ «length» → (result.length ≡ «length») × (result.class ≡ class) }
    ensures shorter { «length» < best.length → (result.length ≡ best.length) × (result.class ≡ best.class) }
{
    if best.length <= length {
        Best { length, class }
    } else {
        best
    }
}

/// The longest piece that a text begins with.
pub fn longest(text: &[u8]) -> Best
    requires { 0 < length text.now }
    ensures { IsBest spec.piece_of text.now result }
{
    let comment = comment_lengths(text);
    let character = quoted_lengths(b'\'', text);
    let string = quoted_lengths(b'"', text);
    let blank = longer(blank_length(text), line_comment_length(text));
    let space = longer(blank, comment.closed);
    let quote = longer(character.unclosed, string.unclosed);
    let byte = Best {
        length: 1,
        class: Class::Byte,
    };
    let quoted = better(byte, quote, Class::OpenQuote);
    let opened = better(quoted, comment.unclosed, Class::OpenComment);
    let marked = better(opened, punctuator_length(text), Class::Punctuator);
    let texts = better(marked, string.closed, Class::Text);
    let characters = better(texts, character.closed, Class::Character);
    let numbers = better(characters, number_length(text), Class::Number);
    let names = better(numbers, name_length(text), Class::Name);
    let white = better(names, space, Class::Space);
    better(white, newline_length(text), Class::Newline)
}
