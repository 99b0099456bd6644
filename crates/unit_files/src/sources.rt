//! The files that a unit is read from.
ghost use Rattle.std.specs.Prelude.{◌≡◌, ◌<◌, ◌≤◌, length, map, take, drop};
ghost use Rattle.c_text.specs.Lines.{plain_line};
ghost use Rattle.c_text.specs.Preprocessing as spec;
ghost use Rattle.unit_files.specs.Inclusions.{plain_source, IsAmong};
ghost use Rattle.unit_files.specs.SourceFiles.{source_number, text_of, its_lines, AreSources, AreSmall};

use crate::inclusions::Source;
use c_text::{BUILT_IN_FILE, Line};
use text_edits::SourceFile;

/// The text of the built-in headers, of which `<stdio.h>` has the first five lines.
const BUILT_IN_TEXT: &[u8] = b"#define EOF (-1)
#define NULL 0
int putchar(int);
int getchar(void);
int puts(char *);
#define NULL 0
void exit(int);
";

/// The files of a project.
#[derive(Clone, Copy)]
pub struct Sources<'a> {
    pub files: &'a [SourceFile],
    /// The names of the headers, which are the first files.
    pub headers: &'a [String],
    pub features: &'a [String],
}

/// The number of a file.
pub fn source_number(source: Source) -> u32
    ensures { result ≡ source_number (plain_source source) }
{
    match source {
        Source::ProjectFile(number) => number,
        Source::Stdio | Source::Stdlib => BUILT_IN_FILE,
    }
}

/// Those of the lines of a file's text that are the source's.
pub fn its_lines(source: Source, lines: &[Line]) -> &[Line]
    ensures { map plain_line result.now ≡ its_lines (plain_source source) (map plain_line lines.now) }
{
    match source {
        Source::ProjectFile(_) => lines,
        Source::Stdio => stdio_lines(lines),
        Source::Stdlib => stdlib_lines(lines),
    }
}

fn stdio_lines(lines: &[Line]) -> &[Line]
    ensures { map plain_line result.now ≡ take 5 (map plain_line lines.now) }
{
    let (stdio, _) = lines.split_at(lines.len().min(5));
    stdio
}

fn stdlib_lines(lines: &[Line]) -> &[Line]
    ensures { map plain_line result.now ≡ drop 5 (map plain_line lines.now) }
{
    let (_, stdlib) = lines.split_at(lines.len().min(5));
    stdlib
}

fn built_in_text() -> &'static [u8]
    ensures { result.now ≡ spec.built_in_text }
{
    BUILT_IN_TEXT
}

impl<'a> Sources<'a> {
    /// The text in which the source stands.
    pub fn text_of(&self, source: Source) -> &'a [u8]
        requires there { IsAmong (length self.now.files.now) source }
        requires small { AreSmall self.now }
        ensures value { (s : spec.Sources) → AreSources self.now s → result.now ≡ text_of s (plain_source source) }
        ensures short { length result.now ≤ 4294967295 }
    {
        match source {
            Source::ProjectFile(number) => self.file_at(number),
            Source::Stdio | Source::Stdlib => built_in_text(),
        }
    }

    fn file_at(&self, number: u32) -> &'a [u8]
        requires there { number < length self.now.files.now }
        requires small { AreSmall self.now }
        ensures value { (s : spec.Sources) → AreSources self.now s → result.now ≡ (spec.file_at s number).bytes }
        ensures short { length result.now ≤ 4294967295 }
    {
        self.files[number as usize].bytes.as_slice()
    }

    /// The name of the source's file; a built-in one has none.
    pub fn name_of(&self, source: Source) -> &'a [u8]
        requires { IsAmong (length self.now.files.now) source }
        ensures { (s : spec.Sources) → AreSources self.now s → result.now ≡ spec.source_name s (plain_source source) }
    {
        match source {
            Source::ProjectFile(number) => self.files[number as usize].name.as_bytes(),
            Source::Stdio | Source::Stdlib => &[],
        }
    }
}

/// How long the text of the built-in headers is.
pub fn built_in_length() -> u32
    ensures { result ≡ length spec.built_in_text }
{
    BUILT_IN_TEXT.len() as u32
}
