//! The longest piece that a text begins with.
ghost use Rattle.std.specs.Prelude.{◌≡◌, ◌↔◌, [], IsNone, IfSome, if◌then◌else◌};
ghost use Rattle.c_names.specs.Names as names;
ghost use Rattle.c_text.specs.Pieces as spec;
ghost use Rattle.c_lexer.specs.Classes as classes;
ghost use Rattle.c_lexer.specs.Classes.{IsLongestPiece};
ghost use Rattle.c_lexer.specs.View.{kind_view};

use crate::classes::{Class, longest};
use c_constants::{is_character, is_integer, is_text};
use c_names::is_keyword;
use c_text::{BadKind, TokenKind};

/// What a piece of a text is (5.1.1.2, phase 3).
#[derive(Clone, Copy, Debug, PartialEq, Eq)]
pub enum PieceKind {
    /// White space within a line, or a comment.
    Space,
    /// The newline that ends a line.
    LineEnd,
    Token(TokenKind),
}

/// A piece at the front of a text.
#[derive(Clone, Copy, Debug, PartialEq, Eq)]
pub struct Piece {
    /// How many bytes it has.
    pub length: usize,
    pub kind: PieceKind,
}

fn name_kind(word: &[u8]) -> TokenKind
    ensures { result ≡ (if names.is_keyword word.now then TokenKind.Keyword else TokenKind.Name) }
{
    if is_keyword(word) {
        TokenKind::Keyword
    } else {
        TokenKind::Name
    }
}

/// The kind of a token that the engine reads, if this is one that it does.
fn bad_unless(read: bool, kind: TokenKind) -> TokenKind
    ensures { result ≡ spec.bad_unless read kind }
{
    if read {
        kind
    } else {
        TokenKind::Bad(BadKind::OutOfProfile)
    }
}

/// What bytes are as a piece of a class.
fn kind_in(class: Class, bytes: &[u8]) -> PieceKind
    ensures { kind_view result ≡ classes.kind_in class bytes.now }
{
    match class {
        Class::Newline => PieceKind::LineEnd,
        Class::Space => PieceKind::Space,
        Class::Name => PieceKind::Token(name_kind(bytes)),
        Class::Number => PieceKind::Token(bad_unless(is_integer(bytes), TokenKind::Number)),
        Class::Character => PieceKind::Token(bad_unless(is_character(bytes), TokenKind::Character)),
        Class::Text => PieceKind::Token(bad_unless(is_text(bytes), TokenKind::Text)),
        Class::Punctuator => PieceKind::Token(TokenKind::Punctuator),
        Class::OpenComment => PieceKind::Token(TokenKind::Bad(BadKind::OpenComment)),
        Class::OpenQuote => PieceKind::Token(TokenKind::Bad(BadKind::OpenQuote)),
        Class::Byte => PieceKind::Token(TokenKind::Bad(BadKind::BadByte)),
    }
}

/// The longest piece that a text without splices begins with; `None` where the text is empty. In time linear in the piece.
pub fn longest_piece(text: &[u8]) -> Option<Piece>
    ensures none { IsNone result ↔ (text.now ≡ []) }
    ensures some { IfSome result (λ p. IsLongestPiece text.now p.length (kind_view p.kind)) }
{
    if text.is_empty() {
        return None;
    }
    let best = longest(text);
    let kind = kind_in(best.class, &text[..best.length]);
    Some(Piece {
        length: best.length,
        kind,
    })
}
