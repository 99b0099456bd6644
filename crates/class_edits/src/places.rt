//! Which token a place of a file stands for, and the name that is written there.
ghost use Rattle.std.specs.Prelude.{◌≡◌, ◌≤◌, length, map, All, IfOk, IsTrue, ◌↔◌};
ghost use Rattle.text_edits.specs.Span.{plain_span};
ghost use Rattle.text_edits.specs.Files.{plain_files};
ghost use Rattle.c_text.specs.Token.{plain_token};
ghost use Rattle.c_text.specs.Lines.{plain_line};
ghost use Rattle.project_file.specs.View.{Finds};
ghost use Rattle.tied_tokens.specs.Tokens.{plain_file_token};
ghost use Rattle.reference_classes.specs.Renamed.{IsWrittenAt};
ghost use Rattle.class_edits.specs.Places.{HoldsByte};
ghost use Rattle.class_edits.specs.Search.{HoldsAmong, HoldsInLines, plain_named_token, IsNamedAt};

use crate::laws::bytes_tell_tokens;
use c_lexer::{lex, lines_are_one};
use c_text::{FileToken, Line, Token};
use cond_formula::NoMemory;
use std::alloc::Global;
use text_edits::{Files, Span};

/// The first of the tokens that holds the byte at an offset.
fn token_among(tokens: &[Token], at: u32) -> Option<&Token>
    ensures { Finds (λ t. plain_token t.now) (HoldsAmong (map plain_token tokens.now) at) result }
{
    for token in tokens {
        if token.origin.span.holds(at) {
            return Some(token);
        }
    }
    None
}

/// The first token of the lines that holds it.
fn token_in_lines(lines: &[Line], at: u32) -> Option<&Token>
    ensures { Finds (λ t. plain_token t.now) (HoldsInLines (map plain_line lines.now) at) result }
{
    for line in lines {
        if let Some(token) = token_among(&line.tokens, at) {
            return Some(token);
        }
    }
    None
}

/// A token of a file, and the name that is written there.
#[derive(Drop)]
struct NamedToken {
    token: FileToken,
    name: Vec<u8>,
}

/// The token of a file's text that holds the byte at an offset.
fn named_token(
    alloc: Global,
    files: &Files,
    file: u32,
    at: u32,
) -> Result<Option<NamedToken>, NoMemory>
    requires { All (λ f. length f.bytes ≤ 4294967295) (plain_files files.now) }
    ensures { IfOk result (λ found. Finds plain_named_token (IsNamedAt (plain_files files.now) file at) found) }
{
    lines_are_one();
    let Some(source) = files.list.get(file as usize) else {
        return Ok(None);
    };
    let lines = lex(alloc, file, &source.bytes)?;
    match token_in_lines(&lines, at) {
        Some(token) => Ok(Some(NamedToken {
            token: FileToken {
                file,
                span: token.origin.span,
            },
            name: Vec::from_slice(alloc, &token.text)?,
        })),
        None => Ok(None),
    }
}

/// The token of a file that a place stands for: the one whose span holds the byte at the offset. White space, comments and what is
/// behind the file's end are held by none.
pub fn token_at(
    alloc: Global,
    files: &Files,
    file: u32,
    offset: u32,
) -> Result<Option<FileToken>, NoMemory>
    requires { All (λ f. length f.bytes ≤ 4294967295) (plain_files files.now) }
    ensures { IfOk result (λ found. Finds plain_file_token (HoldsByte (plain_files files.now) file offset) found) }
{
    match named_token(alloc, files, file, offset)? {
        Some(found) => Ok(Some(found.token)),
        None => Ok(None),
    }
}

fn is_same(a: &Span, b: &Span) -> bool
    ensures { IsTrue result ↔ plain_span a.now ≡ plain_span b.now }
{
    a.start == b.start && a.end == b.end
}

/// The name that is written at a token of a file, without splices, if there is such a token.
pub fn name_at(alloc: Global, files: &Files, place: &FileToken) -> Result<Option<Vec<u8>>, NoMemory>
    requires { All (λ f. length f.bytes ≤ 4294967295) (plain_files files.now) }
    ensures { IfOk result (λ found. Finds (λ name. name.items) (IsWrittenAt (plain_files files.now) (plain_file_token place.now)) found) }
{
    lines_are_one();
    bytes_tell_tokens();
    let Some(found) = named_token(alloc, files, place.file, place.span.start)? else {
        return Ok(None);
    };
    if !is_same(&found.token.span, &place.span) {
        return Ok(None);
    }
    Ok(Some(found.name))
}
