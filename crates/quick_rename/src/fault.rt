//! How much of a text can stand, where a parser refused a symbol.
ghost use Rattle.std.specs.Prelude.{◌≡◌, ◌+◌, ◌-◌, ◌<◌, ◌&&◌, [], ◌∷◌, true, false, codes, length, max, nat_eq};
ghost use Rattle.std.specs.List.{starts_with, list_all};
ghost use Rattle.quick_form.specs.Words as spec_word;
ghost use Rattle.quick_form.specs.Symbols as spec;
ghost use Rattle.quick_lexer.specs.Lines.{BeginsWith};
ghost use Rattle.quick_lexer.specs.View.{piece_view, symbol_view};
ghost use Rattle.quick_parser.specs.Steps.{is_entry};
ghost use Rattle.quick_rename.specs.Cuts.{Cut, FaultAt, takes_tokens, takes_line, StopFault};
ghost use Rattle.quick_rename.specs.Fronts as spec_front;
ghost use Rattle.quick_rename.specs.Fronts.{IsFrontLength, IsNextPiece, RefusesFirst};

use c_names::is_identifier;
use quick_lexer::{Piece, Symbol, first_solid_piece, is_name, is_number};
use quick_parser::{
    Parser, malformed_is_refused, names_are_alike, numbers_are_alike, tests_stand_at_entries,
};

/// How many names may be tested.
const MOST_TESTED: usize = 128;

/// Whether the front begins the word of a symbol that may stand next.
fn begins_word(parser: &Parser, word: &[u8], symbol: &Symbol, front: &[u8]) -> bool
    ensures { result ≡ spec_front.begins_word parser.now word.now (symbol_view symbol.now) front.now }
{
    word.starts_with(front) && parser.accepts(symbol)
}

/// Whether it is that word.
fn is_whole_word(parser: &Parser, word: &[u8], symbol: &Symbol, front: &[u8]) -> bool
    ensures { result ≡ spec_front.is_whole_word parser.now word.now (symbol_view symbol.now) front.now }
{
    front == word && parser.accepts(symbol)
}

/// Whether a word that begins so may be a name that stands next.
fn begins_identifier(parser: &Parser, front: &[u8]) -> bool
    ensures { result ≡ (spec_word.is_identifier front.now && spec_front.can parser.now (spec.Name (codes "a"))) }
{
    is_identifier(front) && parser.accepts(&Symbol::Name(b"a"))
}

/// Whether a word that begins so may be a number that stands next.
fn begins_number(parser: &Parser, front: &[u8]) -> bool
    ensures { result ≡ (spec_word.is_number front.now && spec_front.can parser.now (spec.Number (codes "0"))) }
{
    is_number(front) && parser.accepts(&Symbol::Number(b"0"))
}

/// Whether a word that begins so may be a token that stands next.
fn begins_token(parser: &Parser, front: &[u8]) -> bool
    ensures { result ≡ spec_front.begins_token parser.now front.now }
{
    begins_word(parser, b"int", &Symbol::Int, front)
        || begins_word(parser, b"void", &Symbol::Void, front)
        || begins_word(parser, b"while", &Symbol::While, front)
        || begins_word(parser, b"return", &Symbol::Return, front)
        || begins_word(parser, b"putchar", &Symbol::Putchar, front)
        || begins_word(parser, b"main", &Symbol::Main, front)
        || begins_identifier(parser, front)
        || begins_number(parser, front)
}

/// Whether a word that begins so may be the name of a directive, where one may stand.
fn begins_directive(parser: &Parser, front: &[u8]) -> bool
    ensures { result ≡ spec_front.begins_directive parser.now front.now }
{
    b"ifdef".starts_with(front)
        || begins_word(parser, b"else", &Symbol::Else, front)
        || begins_word(parser, b"endif", &Symbol::Endif, front)
}

/// Whether a word is all of a directive that may stand next, but for `ifdef`.
fn is_bare_directive(parser: &Parser, word: &[u8]) -> bool
    ensures { result ≡ spec_front.is_bare_directive parser.now word.now }
{
    is_whole_word(parser, b"else", &Symbol::Else, word)
        || is_whole_word(parser, b"endif", &Symbol::Endif, word)
}

/// How many bytes of a word begin a token that may stand next. Where a name may, that is looked at again only for
/// words that are no names, and these are short; likewise for numbers.
fn token_len(parser: &Parser, word: &[u8]) -> usize
    ensures { IsFrontLength (spec_front.begins_token parser.now) word.now result }
{
    for i in 0..word.len() {
        if !begins_token(parser, &word[..i + 1]) {
            return i;
        }
    }
    word.len()
}

/// How many bytes of a word begin the name of a directive.
fn directive_len(parser: &Parser, word: &[u8]) -> usize
    ensures { IsFrontLength (spec_front.begins_directive parser.now) word.now result }
{
    for i in 0..word.len() {
        if !begins_directive(parser, &word[..i + 1]) {
            return i;
        }
    }
    word.len()
}

/// How many bytes of a word begin the name.
fn common_len(name: &[u8], word: &[u8]) -> usize
    ensures { IsFrontLength (starts_with nat_eq name.now) word.now result }
{
    for (i, byte) in word.iter().enumerate() {
        if i >= name.len() || name[i] != *byte {
            return i;
        }
    }
    word.len()
}

fn longer(left: usize, right: usize) -> usize
    ensures { result ≡ max left right }
{
    if left < right { right } else { left }
}

/// How many bytes of a word begin a name that was tested before.
fn tested_len(parser: &Parser, word: &[u8]) -> usize
    ensures { IsFrontLength (spec_front.begins_name parser.now.tested_names) word.now result }
{
    let mut longest = 0;
    for name in parser.tested() {
        longest = longer(longest, common_len(name.as_slice(), word));
    }
    longest
}

/// How many bytes of a word begin an identifier.
fn identifier_len(word: &[u8]) -> usize
    requires { list_all spec_word.is_word_byte word.now ≡ true }
    ensures { IsFrontLength spec_word.is_identifier word.now result }
{
    if is_identifier(word) { word.len() } else { 0 }
}

/// How many bytes of a word begin a name that may be tested.
fn test_len(parser: &Parser, word: &[u8]) -> usize
    requires letters { list_all spec_word.is_word_byte word.now ≡ true }
    requires names { list_all spec_word.is_name parser.now.tested_names ≡ true }
    ensures { IsFrontLength (spec_front.begins_test parser.now) word.now result }
{
    if parser.tested().len() < MOST_TESTED {
        identifier_len(word)
    } else {
        tested_len(parser, word)
    }
}

/// How many bytes a piece has.
fn piece_len(piece: &Piece) -> usize
    ensures { result ≡ length (spec.piece_bytes (piece_view piece.now)) }
{
    match piece {
        Piece::Word(word) => word.len(),
        Piece::Other(_) => 1,
    }
}

/// Where a piece of so many bytes begins in a line that ends with the rest behind it.
fn piece_start(line: &[u8], len: usize, rest: &[u8]) -> usize
    ensures { result ≡ length line.now - length rest.now - len }
{
    line.len().saturating_sub(rest.len()).saturating_sub(len)
}

/// Where the next piece of a line begins, the text being the end of the line; or where the line ends.
fn next_start(line: &[u8], text: &[u8]) -> usize
    ensures { IsNextPiece line.now text.now result }
{
    match first_solid_piece(text) {
        Some((piece, rest)) => piece_start(line, piece_len(&piece), rest),
        None => line.len(),
    }
}

/// How much of the text can stand as tokens.
fn token_fault(parser: &Parser, text: &[u8]) -> usize
    requires { RefusesFirst parser.now text.now }
    ensures { FaultAt (takes_tokens parser.now) text.now result }
{
    names_are_alike();
    numbers_are_alike();
    malformed_is_refused();
    match first_solid_piece(text) {
        Some((Piece::Word(word), rest)) => {
            piece_start(text, word.len(), rest) + token_len(parser, word)
        }
        Some((Piece::Other(_), rest)) => piece_start(text, 1, rest),
        None => text.len(),
    }
}

/// How much of a line can stand, of which the text follows `#ifdef`.
fn test_fault(parser: &Parser, line: &[u8], text: &[u8]) -> usize
    requires cut { Cut line.now text.now (spec.Other 35 ∷ spec.Word (codes "ifdef") ∷ []) }
    requires entry { is_entry parser.now.spot.place ≡ true }
    requires names { list_all spec_word.is_name parser.now.tested_names ≡ true }
    ensures { FaultAt (takes_line parser.now) line.now result }
{
    malformed_is_refused();
    tests_stand_at_entries();
    match first_solid_piece(text) {
        Some((Piece::Word(name), rest)) => {
            if may_test(parser, name) {
                next_start(line, rest)
            } else {
                piece_start(line, name.len(), rest) + test_len(parser, name)
            }
        }
        Some((Piece::Other(_), rest)) => piece_start(line, 1, rest),
        None => line.len(),
    }
}

/// Whether a word is a name that may be tested next.
fn may_test(parser: &Parser, word: &[u8]) -> bool
    ensures { result ≡ (spec_word.is_name word.now && spec_front.can parser.now (spec.Ifdef word.now)) }
{
    is_name(word) && parser.accepts(&Symbol::Ifdef(word))
}

/// How much of a line can stand, of which the word follows `#`, and the rest follows it.
fn word_fault(parser: &Parser, line: &[u8], text: &[u8], word: &[u8], rest: &[u8]) -> usize
    requires cut { Cut line.now text.now (spec.Other 35 ∷ []) }
    requires begins { BeginsWith text.now (spec.Word word.now) rest.now }
    requires entry { is_entry parser.now.spot.place ≡ true }
    requires names { list_all spec_word.is_name parser.now.tested_names ≡ true }
    ensures { FaultAt (takes_line parser.now) line.now result }
{
    malformed_is_refused();
    tests_stand_at_entries();
    if word == b"ifdef".as_slice() {
        test_fault(parser, line, rest)
    } else if is_bare_directive(parser, word) {
        next_start(line, rest)
    } else {
        piece_start(line, word.len(), rest) + directive_len(parser, word)
    }
}

/// How much of a line can stand, of which the text follows `#`.
fn name_fault(parser: &Parser, line: &[u8], text: &[u8]) -> usize
    requires cut { Cut line.now text.now (spec.Other 35 ∷ []) }
    requires entry { is_entry parser.now.spot.place ≡ true }
    requires names { list_all spec_word.is_name parser.now.tested_names ≡ true }
    ensures { FaultAt (takes_line parser.now) line.now result }
{
    malformed_is_refused();
    tests_stand_at_entries();
    match first_solid_piece(text) {
        Some((Piece::Word(word), rest)) => word_fault(parser, line, text, word, rest),
        Some((Piece::Other(_), rest)) => piece_start(line, 1, rest),
        None => line.len(),
    }
}

/// How much of a directive line can stand.
fn directive_fault(parser: &Parser, line: &[u8]) -> usize
    requires directive { spec.is_directive_line (spec.solid_pieces line.now) ≡ true }
    requires names { list_all spec_word.is_name parser.now.tested_names ≡ true }
    ensures { FaultAt (takes_line parser.now) line.now result }
{
    malformed_is_refused();
    tests_stand_at_entries();
    match first_solid_piece(line) {
        Some((_, rest)) => {
            if parser.is_at_entry() {
                name_fault(parser, line, rest)
            } else {
                piece_start(line, 1, rest)
            }
        }
        None => line.len(),
    }
}

/// How much of a text can stand, whose first symbol a parser refused: a whole directive line, or the tokens that are
/// left of a line.
pub(crate) fn fault_len(parser: &Parser, text: &[u8], is_directive: bool) -> usize
    requires directive { is_directive ≡ true → spec.is_directive_line (spec.solid_pieces text.now) ≡ true }
    requires tokens { is_directive ≡ false → RefusesFirst parser.now text.now }
    requires names { list_all spec_word.is_name parser.now.tested_names ≡ true }
    ensures { StopFault parser.now is_directive text.now result }
{
    if is_directive {
        directive_fault(parser, text)
    } else {
        token_fault(parser, text)
    }
}
