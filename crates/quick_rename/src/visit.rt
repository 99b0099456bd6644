//! A walk over the symbols of a file, one after another.
ghost use Rattle.std.specs.Prelude.{◌≡◌, ◌==◌, ◌<◌, ◌≤◌, ◌-◌, ℕ, List, [], ◌∷◌, ◌++◌, true, false, length, take, slice_index, All, IfOk, OnOk, IfNone, IfSome};
ghost use Rattle.quick_form.specs.Places.{Placed, placed_pieces, placed_line, placed_symbols, solid_length};
ghost use Rattle.quick_form.specs.Symbols.{pieces_of, lines_of, solid_pieces, is_directive_line};
ghost use Rattle.quick_lexer.specs.View.{symbol_view};
ghost use Rattle.quick_rename.specs.Cuts.{IsOneLine};
ghost use Rattle.quick_rename.specs.Visits.{placed, lines_in, Visits, StopsInLine, StopsInFile};

use quick_lexer::{Symbol, directive, first_symbol, is_blank};
use std::alloc::AllocError;

/// What goes over the symbols of a file, and may refuse one.
pub(crate) trait Visitor {
    /// Holds where these are the symbols that it has taken, with their places.
    ghost took: { Self → List Placed → Type 0 };

    /// Holds where it takes no such symbols.
    ghost refuses: { List Placed → Type 0 };

    /// The words that it goes by, which stay.
    ghost words: { Self → List (List ℕ) };

    /// Takes a symbol, whose last byte stands before the offset `end`. `false` where it refuses it.
    fn take(&mut self, symbol: &Symbol, end: usize) -> Result<bool, AllocError>
        ensures words { OnOk result (words self.new ≡ words self.old) }
        ensures taken { IfOk result (λ yes. yes ≡ true → (ks : List Placed) → took self.old ks → took self.new (ks ++ placed (symbol_view symbol.now) end ∷ [])) }
        ensures stays { IfOk result (λ yes. yes ≡ false → (ks : List Placed) → took self.old ks → took self.new ks) }
        ensures refused { IfOk result (λ yes. yes ≡ false → (ks : List Placed) → took self.old ks → refuses (ks ++ placed (symbol_view symbol.now) end ∷ [])) };
}

/// Where a visitor refused a symbol: it is the first of the text, which begins at the offset.
#[derive(Clone, Copy, Debug)]
pub(crate) struct Stop<'a> {
    pub(crate) at: usize,
    pub(crate) text: &'a [u8],
    pub(crate) is_directive: bool,
}

/// Where the first newline stands.
fn newline_at(text: &[u8]) -> Option<usize>
    ensures none { IfNone result (All (λ b. (b == 10) ≡ false) text.now) }
    ensures within { IfSome result (λ i. i < length text.now) }
    ensures some { IfSome result (λ i. slice_index text.now i ≡ 10) }
    ensures first { IfSome result (λ i. All (λ b. (b == 10) ≡ false) (take i text.now)) }
{
    text.iter().position(|byte| *byte == b'\n')
}

/// The first line of a text, and the text after its newline.
fn first_line<'a>(text: &'a [u8]) -> (&'a [u8], Option<&'a [u8]>)
    ensures lines { lines_of text.now ≡ result.0.now ∷ lines_in result.1 }
    ensures one_line { IsOneLine result.0.now }
    ensures last { IfNone result.1 (text.now ≡ result.0.now) }
    ensures more { IfSome result.1 (λ more. text.now ≡ result.0.now ++ 10 ∷ more.now) }
{
    match newline_at(text) {
        Some(i) => (&text[..i], Some(&text[i + 1..])),
        None => (text, None),
    }
}

/// The length of a line without the blanks and tabs at its end.
fn solid_len(line: &[u8]) -> usize
    ensures len { result ≡ solid_length line.now }
    ensures within { result ≤ length line.now }
{
    let mut len = 0;
    for (i, byte) in line.iter().enumerate() {
        if !is_blank(*byte) {
            len = i + 1;
        }
    }
    len
}

/// Visits the tokens of a line that is no directive line, and that ends at the offset `end`.
fn visit_tokens<'a, V: Visitor>(
    visitor: &mut V,
    line: &'a [u8],
    end: usize,
) -> Result<Option<Stop<'a>>, AllocError>
    requires within { length line.now ≤ end }
    requires tokens { is_directive_line (solid_pieces line.now) ≡ false }
    ensures words { OnOk result (V.words visitor.new ≡ V.words visitor.old) }
    ensures visits { IfOk result (λ stop. Visits V.took V.refuses (StopsInLine line.now (end - length line.now)) visitor.old visitor.new
        (placed_pieces (end - length line.now) (pieces_of line.now)) stop) }
{
    let mut rest = line;
    while let Some((symbol, next)) = first_symbol(rest) {
        if !visitor.take(&symbol, end - next.len())? {
            return Ok(Some(Stop {
                at: end - rest.len(),
                text: rest,
                is_directive: false,
            }));
        }
        rest = next;
    }
    Ok(None)
}

/// Visits the symbols of a line that ends at the offset `end`.
fn visit_line<'a, V: Visitor>(
    visitor: &mut V,
    line: &'a [u8],
    end: usize,
) -> Result<Option<Stop<'a>>, AllocError>
    requires { length line.now ≤ end }
    ensures words { OnOk result (V.words visitor.new ≡ V.words visitor.old) }
    ensures visits { IfOk result (λ stop. Visits V.took V.refuses (StopsInLine line.now (end - length line.now)) visitor.old visitor.new
        (placed_line (end - length line.now) line.now) stop) }
{
    match directive(line) {
        None => visit_tokens(visitor, line, end),
        Some(symbol) => {
            let at = end - line.len();
            if visitor.take(&symbol, at + solid_len(line))? {
                Ok(None)
            } else {
                Ok(Some(Stop {
                    at,
                    text: line,
                    is_directive: true,
                }))
            }
        }
    }
}

/// Visits the symbols of a file up to the first that is refused.
pub(crate) fn visit<'a, V: Visitor>(
    visitor: &mut V,
    bytes: &'a [u8],
) -> Result<Option<Stop<'a>>, AllocError>
    ensures words { OnOk result (V.words visitor.new ≡ V.words visitor.old) }
    ensures visits { IfOk result (λ stop. Visits V.took V.refuses (StopsInFile bytes.now) visitor.old visitor.new (placed_symbols bytes.now) stop) }
{
    let mut text = Some(bytes);
    while let Some(rest) = text {
        let (line, more) = first_line(rest);
        let end = bytes.len() - (rest.len() - line.len());
        if let Some(stop) = visit_line(visitor, line, end)? {
            return Ok(Some(stop));
        }
        text = more;
    }
    Ok(None)
}
