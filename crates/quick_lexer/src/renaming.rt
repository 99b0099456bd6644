//! A file with one name made another: each token that is the name, and nothing in directive lines.
ghost use Rattle.std.specs.Prelude.{◌≡◌, ◌++◌, [], ◌∷◌, IfOk, OnOk, OnErr, if◌then◌else◌};
ghost use Rattle.std.specs.List.{flat_map};
ghost use Rattle.quick_form.specs.Symbols.{pieces_of};
ghost use Rattle.quick_form.specs.Renaming as spec;
ghost use Rattle.quick_lexer.specs.Output.{IsBegun};
ghost use Rattle.quick_lexer.specs.View.{piece_view};

use crate::lines::directive;
use crate::pieces::{Piece, first_piece};
use std::alloc::{AllocError, Global};

fn renamed_word<'a>(word: &'a [u8], old: &[u8], new: &'a [u8]) -> &'a [u8]
    ensures { result.now ≡ spec.renamed_word old.now new.now word.now }
{
    if word == old { new } else { word }
}

fn push_renamed_piece(
    out: &mut Vec<u8>,
    piece: Piece,
    old: &[u8],
    new: &[u8],
) -> Result<(), AllocError>
    ensures ok { OnOk result (out.new.items ≡ out.old.items ++ spec.renamed_piece old.now new.now (piece_view piece.entry)) }
    ensures err { OnErr result (out.new.items ≡ out.old.items) }
{
    match piece {
        Piece::Word(word) => out.extend_from_slice(renamed_word(word, old, new))?,
        Piece::Other(byte) => out.push(byte)?,
    }
    Ok(())
}

fn push_renamed_tokens(
    out: &mut Vec<u8>,
    line: &[u8],
    old: &[u8],
    new: &[u8],
) -> Result<(), AllocError>
    ensures ok { OnOk result
        (out.new.items ≡ out.old.items ++ flat_map (spec.renamed_piece old.now new.now) (pieces_of line.now)) }
    ensures err { OnErr result (IsBegun out.new.items
        (out.old.items ++ flat_map (spec.renamed_piece old.now new.now) (pieces_of line.now))) }
{
    let mut rest = line;
    while let Some((piece, after)) = first_piece(rest) {
        push_renamed_piece(out, piece, old, new)?;
        rest = after;
    }
    Ok(())
}

/// Appends a line with new for each token old; after an `Err`, as much of it as memory held.
pub fn push_renamed_line(
    out: &mut Vec<u8>,
    line: &[u8],
    old: &[u8],
    new: &[u8],
) -> Result<(), AllocError>
    ensures ok { OnOk result (out.new.items ≡ out.old.items ++ spec.renamed_line old.now new.now line.now) }
    ensures err { OnErr result (IsBegun out.new.items (out.old.items ++ spec.renamed_line old.now new.now line.now)) }
{
    if directive(line).is_some() {
        out.extend_from_slice(line)?;
    } else {
        push_renamed_tokens(out, line, old, new)?;
    }
    Ok(())
}

fn push_next_line(
    out: &mut Vec<u8>,
    is_first: bool,
    line: &[u8],
    old: &[u8],
    new: &[u8],
) -> Result<(), AllocError>
    ensures { OnOk result (out.new.items
        ≡ (if is_first then out.old.items else out.old.items ++ 10 ∷ []) ++ spec.renamed_line old.now new.now line.now) }
{
    if !is_first {
        out.push(b'\n')?;
    }
    push_renamed_line(out, line, old, new)?;
    Ok(())
}

/// A file with new for each token old, and every other byte as it is.
pub fn renamed(alloc: Global, bytes: &[u8], old: &[u8], new: &[u8]) -> Result<Vec<u8>, AllocError>
    ensures { IfOk result (λ v. v.items ≡ spec.renamed_bytes old.now new.now bytes.now) }
{
    let mut out = Vec::new(alloc);
    let mut is_first = true;
    for line in bytes.split(|byte| *byte == b'\n') {
        push_next_line(&mut out, is_first, line, old, new)?;
        is_first = false;
    }
    Ok(out)
}
