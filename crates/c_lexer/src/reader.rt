//! The lines of a text, read piece by piece.
ghost use Rattle.std.specs.Prelude.{◌≡◌, ◌<◌, ◌≤◌, [], length, map, IfOk, OnOk};
ghost use Rattle.text_edits.specs.Span.{plain_span};
ghost use Rattle.c_text.specs.Token.{plain_token};
ghost use Rattle.c_text.specs.Lines as lines;
ghost use Rattle.c_text.specs.Lines.{plain_line};
ghost use Rattle.c_lexer.specs.View.{kind_view};
ghost use Rattle.c_lexer.specs.Reading as reading;
ghost use Rattle.c_lexer.specs.Reading.{Rise};
ghost use Rattle.c_lexer.specs.Reader.{reading_of};

use crate::pieces::PieceKind;
use crate::spans::span_of;
use c_text::{Line, Origin, Place, Token, TokenKind};
use cond_formula::NoMemory;
use std::alloc::Global;
use std::mem;
use text_edits::Span;

/// Whether the first token is `#`.
fn begins_directive(tokens: &[Token]) -> bool
    ensures { result ≡ lines.begin_directive (map plain_token tokens.now) }
{
    match tokens {
        [] => false,
        [first, ..] => first.text.as_slice() == b"#".as_slice(),
    }
}

/// The line of these tokens.
fn line_of(tokens: Vec<Token>, span: Span) -> Line
    ensures { plain_line result
        ≡ lines.line_with (map plain_token tokens.items) (lines.run span.start span.end []) }
{
    Line {
        directive: begins_directive(&tokens),
        tokens,
        span,
    }
}

/// The lines of a file that have been read, and the one that is being read.
#[derive(Debug, Drop)]
pub struct LineReader {
    file: u32,
    /// Where the last line ends: the length of the file.
    end: u32,
    lines: Vec<Line>,
    /// Where the line begins that is being read.
    start: u32,
    tokens: Vec<Token>,
    /// Whether a token stands right before the next piece.
    joined: bool,
    /// Whether the line has pieces.
    begun: bool,
}

impl LineReader {
    /// Nothing read yet of a file with this number and length.
    pub fn new(alloc: Global, file: u32, end: u32) -> Self
        ensures { reading_of result ≡ reading.begun_reading file end }
    {
        LineReader {
            file,
            end,
            lines: Vec::new(alloc),
            start: 0,
            tokens: Vec::new(alloc),
            joined: false,
            begun: false,
        }
    }

    /// Reads white space or a comment.
    fn read_space(&mut self)
        ensures { reading_of self.new ≡ reading.with_space (reading_of self.old) }
    {
        self.joined = false;
        self.begun = true;
    }

    /// Ends the line at this offset.
    fn end_line(&mut self, alloc: Global, end: u32) -> Result<(), NoMemory>
        requires { self.old.start ≤ end }
        ensures { OnOk result (reading_of self.new
            ≡ reading.ended_line end (reading_of self.old)) }
    {
        let span = Span {
            start: self.start,
            end,
        };
        let tokens = mem::replace(&mut self.tokens, Vec::new(alloc));
        self.lines.push(line_of(tokens, span))?;
        Ok(())
    }

    /// Ends the line at a newline, and begins the next one behind it.
    fn read_newline(&mut self, alloc: Global, newline: Span) -> Result<(), NoMemory>
        requires { self.old.start ≤ newline.start }
        ensures { OnOk result (reading_of self.new
            ≡ reading.with_newline (plain_span newline) (reading_of self.old)) }
    {
        self.end_line(alloc, newline.start)?;
        self.start = newline.end;
        self.joined = false;
        self.begun = false;
        Ok(())
    }

    /// Reads a token of these bytes.
    fn read_token(
        &mut self,
        alloc: Global,
        kind: TokenKind,
        bytes: &[u8],
        span: Span,
    ) -> Result<(), NoMemory>
        ensures { OnOk result (reading_of self.new
            ≡ reading.with_token kind bytes.now (plain_span span) (reading_of self.old)) }
    {
        let origin = Origin {
            file: self.file,
            span,
            place: Place::Text,
            site: span,
            site_file: self.file,
        };
        let text = Vec::from_slice(alloc, bytes)?;
        self.tokens.push(Token {
            kind,
            text,
            joined: self.joined,
            origin,
        })?;
        self.joined = true;
        self.begun = true;
        Ok(())
    }

    /// Reads one piece more, of these bytes at these places.
    pub fn read(
        &mut self,
        alloc: Global,
        kind: PieceKind,
        bytes: &[u8],
        places: &[u32],
    ) -> Result<(), NoMemory>
        requires some { 0 < length bytes.now }
        requires placed { length places.now ≡ length bytes.now }
        requires rise { Rise self.old.start 4294967295 places.now }
        ensures { OnOk result (reading_of self.new
            ≡ reading.after_kind (kind_view kind) (reading.with_places bytes.now places.now) (reading_of self.old)) }
    {
        let span = span_of(places);
        match kind {
            PieceKind::Space => self.read_space(),
            PieceKind::LineEnd => self.read_newline(alloc, span)?,
            PieceKind::Token(kind) => self.read_token(alloc, kind, bytes, span)?,
        }
        Ok(())
    }

    /// All lines, where no piece follows.
    pub fn finish(mut self, alloc: Global) -> Result<Vec<Line>, NoMemory>
        requires { self.start ≤ self.end }
        ensures { IfOk result (λ lines. map plain_line lines.items ≡ reading.finished (reading_of self)) }
    {
        if self.begun {
            let end = self.end;
            self.end_line(alloc, end)?;
        }
        Ok(self.lines)
    }
}
