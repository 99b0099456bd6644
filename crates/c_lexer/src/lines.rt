//! The lines of a text and their tokens (ISO/IEC 9899:2011, 5.1.1.2, phases 2 and 3).
ghost use Rattle.std.specs.Prelude.{◌≤◌, length, map, IfOk};
ghost use Rattle.c_text.specs.Lines.{AreItsLines, plain_line};

use crate::pieces::longest_piece;
use crate::reader::LineReader;
use crate::splices::spliced;
use c_text::Line;
use cond_formula::NoMemory;
use std::alloc::Global;

/// The lines of the text of the file with this number, and their tokens, bad tokens among them. In time linear in the text.
pub fn lex(alloc: Global, file: u32, text: &[u8]) -> Result<Vec<Line>, NoMemory>
    requires { length text.now ≤ 4294967295 }
    ensures { IfOk result (λ lines. AreItsLines file text.now (map plain_line lines.items)) }
{
    let spliced = spliced(alloc, text)?;
    let bytes = spliced.bytes.as_slice();
    let places = spliced.places.as_slice();
    let mut reader = LineReader::new(alloc, file, text.len() as u32);
    let mut at = 0;
    while let Some(piece) = longest_piece(&bytes[at..]) {
        let end = at + piece.length;
        reader.read(alloc, piece.kind, &bytes[at..end], &places[at..end])?;
        at = end;
    }
    Ok(reader.finish(alloc)?)
}
