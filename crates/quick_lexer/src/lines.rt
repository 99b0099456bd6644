//! The symbols of a line: its tokens one by one, or its directive.
ghost use Rattle.std.specs.Prelude.{◌≡◌, ◌↔◌, ◌<◌, false, [], ◌∷◌, length, IsNone, IfNone, IfSome};
ghost use Rattle.quick_form.specs.Symbols as spec;
ghost use Rattle.quick_lexer.specs.Lines.{BeginsWithSymbol};
ghost use Rattle.quick_lexer.specs.View.{piece_view, symbol_view, token_symbols};

use crate::pieces::{Piece, first_solid_piece};
use crate::symbols::{Symbol, word_symbol};
use crate::words::is_name;

/// The symbol of a piece that is neither a blank nor a tab.
fn piece_symbol<'a>(piece: Piece<'a>) -> Symbol<'a>
    requires { spec.is_blank_piece (piece_view piece) ≡ false }
    ensures { spec.piece_symbols (piece_view piece.entry) ≡ symbol_view result ∷ [] }
{
    match piece {
        Piece::Word(word) => word_symbol(word),
        Piece::Other(byte) => Symbol::Mark(byte),
    }
}

/// The first symbol of a line that is no directive line, and what follows it; `None` where only blanks and tabs are left.
pub fn first_symbol<'a>(line: &'a [u8]) -> Option<(Symbol<'a>, &'a [u8])>
    ensures none { IsNone result ↔ (token_symbols line.now ≡ []) }
    ensures some { IfSome result (λ r. token_symbols line.now ≡ symbol_view r.0 ∷ token_symbols r.1.now) }
    ensures bytes { IfSome result (λ r. BeginsWithSymbol line.now (symbol_view r.0) r.1.now) }
    ensures shorter { IfSome result (λ r. length r.1.now < length line.now) }
{
    let (piece, rest) = first_solid_piece(line)?;
    Some((piece_symbol(piece), rest))
}

/// The directive with one word behind its `#`.
fn bare_directive<'a>(name: &[u8]) -> Symbol<'a>
    ensures { symbol_view result ≡ spec.directive_symbol (spec.Word name.now ∷ []) }
{
    if name == b"else".as_slice() {
        Symbol::Else
    } else if name == b"endif".as_slice() {
        Symbol::Endif
    } else {
        Symbol::Malformed
    }
}

/// The directive with two words behind its `#`.
fn testing_directive<'a>(name: &[u8], tested: &'a [u8]) -> Symbol<'a>
    ensures { symbol_view result ≡ spec.directive_symbol (spec.Word name.now ∷ spec.Word tested.now ∷ []) }
{
    if name == b"ifdef".as_slice() && is_name(tested) {
        Symbol::Ifdef(tested)
    } else {
        Symbol::Malformed
    }
}

/// The directive with a word behind its `#`, and what follows that word.
fn named_directive<'a>(name: &[u8], rest: &'a [u8]) -> Symbol<'a>
    ensures { symbol_view result ≡ spec.directive_symbol (spec.Word name.now ∷ spec.solid_pieces rest.now) }
{
    match first_solid_piece(rest) {
        None => bare_directive(name),
        Some((Piece::Other(_), _)) => Symbol::Malformed,
        Some((Piece::Word(tested), end)) => {
            if first_solid_piece(end).is_none() {
                testing_directive(name, tested)
            } else {
                Symbol::Malformed
            }
        }
    }
}

/// The directive whose `#` stands before the text.
fn directive_symbol<'a>(text: &'a [u8]) -> Symbol<'a>
    ensures { symbol_view result ≡ spec.directive_symbol (spec.solid_pieces text.now) }
{
    match first_solid_piece(text) {
        Some((Piece::Word(name), rest)) => named_directive(name, rest),
        _ => Symbol::Malformed,
    }
}

/// The one symbol of a directive line, which has `#` first, blanks and tabs aside (6.10); `None` for a line of tokens.
pub fn directive<'a>(line: &'a [u8]) -> Option<Symbol<'a>>
    ensures none { IsNone result ↔ (spec.is_directive_line (spec.solid_pieces line.now) ≡ false) }
    ensures some { IfSome result (λ s. spec.line_symbols line.now ≡ symbol_view s ∷ []) }
    ensures tokens { IfNone result (spec.line_symbols line.now ≡ token_symbols line.now) }
{
    match first_solid_piece(line) {
        Some((Piece::Other(b'#'), rest)) => Some(directive_symbol(rest)),
        _ => None,
    }
}
