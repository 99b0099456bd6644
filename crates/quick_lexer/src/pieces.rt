//! The pieces of a line: words, and the bytes between them.
ghost use Rattle.std.specs.Prelude.{◌≡◌, ◌↔◌, ◌<◌, ◌≤◌, ◌++◌, false, [], ◌∷◌, take, length, IsNone, IfSome};
ghost use Rattle.std.specs.List.{prefix_len};
ghost use Rattle.quick_form.specs.Words as spec;
ghost use Rattle.quick_form.specs.Symbols.{piece_bytes, pieces_of, is_blank_piece, solid_pieces};
ghost use Rattle.quick_lexer.specs.Lines.{begins_with_blank, IsPiece, BeginsWith};
ghost use Rattle.quick_lexer.specs.View.{piece_view};

use crate::words::is_blank;
use c_names::is_word_byte;

/// A longest run of letters, digits and `_`, or one other byte.
#[derive(Clone, Copy, Debug, PartialEq)]
pub enum Piece<'a> {
    Word(&'a [u8]),
    Other(u8),
}

/// How many letters, digits and `_` a line begins with.
fn word_len(line: &[u8]) -> usize
    ensures run { result ≡ prefix_len spec.is_word_byte line.now }
    ensures within { result ≤ length line.now }
{
    for (i, byte) in line.iter().enumerate() {
        if !is_word_byte(*byte) {
            return i;
        }
    }
    line.len()
}

/// How many blanks and tabs a line begins with.
fn blank_len(line: &[u8]) -> usize
    ensures run { result ≡ prefix_len spec.is_blank line.now }
    ensures within { result ≤ length line.now }
{
    for (i, byte) in line.iter().enumerate() {
        if !is_blank(*byte) {
            return i;
        }
    }
    line.len()
}

/// A line from its first byte on that is neither a blank nor a tab.
fn without_blanks<'a>(line: &'a [u8]) -> &'a [u8]
    ensures solid { solid_pieces result.now ≡ solid_pieces line.now }
    ensures visible { begins_with_blank result.now ≡ false }
    ensures blanks { line.now ≡ take (prefix_len spec.is_blank line.now) line.now ++ result.now }
    ensures within { length result.now ≤ length line.now }
{
    &line[blank_len(line)..]
}

/// The first piece of a line that isn't empty, and what follows it.
pub fn first_piece<'a>(line: &'a [u8]) -> Option<(Piece<'a>, &'a [u8])>
    ensures none { IsNone result ↔ (line.now ≡ []) }
    ensures some { IfSome result (λ r. pieces_of line.now ≡ piece_view r.0 ∷ pieces_of r.1.now) }
    ensures bytes { IfSome result (λ r. line.now ≡ piece_bytes (piece_view r.0) ++ r.1.now) }
    ensures cut { IfSome result (λ r. IsPiece (piece_view r.0) r.1.now) }
    ensures shorter { IfSome result (λ r. length r.1.now < length line.now) }
{
    match line {
        [] => None,
        [first, rest @ ..] => {
            if is_word_byte(*first) {
                let (word, rest) = line.split_at(word_len(line));
                Some((Piece::Word(word), rest))
            } else {
                Some((Piece::Other(*first), rest))
            }
        }
    }
}

/// The first piece of a line that is neither a blank nor a tab, and what follows it.
pub fn first_solid_piece<'a>(line: &'a [u8]) -> Option<(Piece<'a>, &'a [u8])>
    ensures none { IsNone result ↔ (solid_pieces line.now ≡ []) }
    ensures some { IfSome result (λ r. solid_pieces line.now ≡ piece_view r.0 ∷ solid_pieces r.1.now) }
    ensures solid { IfSome result (λ r. is_blank_piece (piece_view r.0) ≡ false) }
    ensures bytes { IfSome result (λ r. BeginsWith line.now (piece_view r.0) r.1.now) }
    ensures shorter { IfSome result (λ r. length r.1.now < length line.now) }
{
    first_piece(without_blanks(line))
}
