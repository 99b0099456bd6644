//! The renaming of one name in a file of the quick form.
#![tactic(auto)]

ghost use Rattle.std.specs.Prelude.{◌≡◌, ◌<◌, ◌≤◌, true, length, IfOk};
ghost use Rattle.quick_form.specs.Words.{is_name};
ghost use Rattle.quick_form.specs.Symbols.{symbols_of};
ghost use Rattle.quick_rename.specs.Answer.{AnswersRenaming, HasPlace, AnswersLongFile};
ghost use Rattle.quick_rename.specs.Laws.{TakingIsDecided};
ghost use Rattle.quick_rename.specs.Readings.{IsWhole};

mod fault;
mod form;
mod scan;
mod visit;

use crate::form::{Reading, read};
use crate::scan::Scan;
use crate::visit::visit;
use quick_form::one_reading;
use quick_lexer::renamed;
use quick_parser::{
    Parser, complete_is_written, declared_behind_int, refused_is_unwritten, tests_are_kept,
};
use std::alloc::{AllocError, Global};

/// What a renaming answers of a file.
#[derive(Debug, Drop)]
pub enum Answer {
    /// The file's bytes with the new name for every token that is the old one, and how many tokens
    /// these are.
    Renamed { bytes: Vec<u8>, tokens: usize },
    /// The file isn't taken. The offset is that of the first byte that is at fault, or the file's
    /// length.
    NotQuick { offset: usize },
}

/// The most bytes of a file of the form.
const MOST_BYTES: usize = 16_777_216;

/// Renames in a file that was read as one of the form.
fn rename_read(
    alloc: Global,
    bytes: &[u8],
    old: &[u8],
    new: &[u8],
    parser: &Parser,
) -> Result<Answer, AllocError>
    requires whole { IsWhole (symbols_of bytes.now) parser.now }
    requires size { length bytes.now ≤ 16777216 }
    ensures answer { IfOk result (AnswersRenaming old.now new.now bytes.now) }
    ensures place { IfOk result (HasPlace old.now new.now bytes.now) }
{
    tests_are_kept();
    declared_behind_int();
    let mut scan = Scan::new(old, new, parser);
    visit(&mut scan, bytes)?;
    match scan.fault(bytes.len()) {
        Some(offset) => Ok(Answer::NotQuick { offset }),
        None => Ok(Answer::Renamed {
            bytes: renamed(alloc, bytes, old, new)?,
            tokens: scan.tokens(),
        }),
    }
}

/// Renames one name in a file of the quick form.
pub fn rename(alloc: Global, bytes: &[u8], old: &[u8], new: &[u8]) -> Result<Answer, AllocError>
    requires { is_name new.now ≡ true }
    ensures answer { IfOk result (AnswersRenaming old.now new.now bytes.now) }
    ensures place { IfOk result (HasPlace old.now new.now bytes.now) }
{
    if bytes.len() > MOST_BYTES {
        return too_long(alloc, bytes);
    }
    match read(alloc, bytes)? {
        Reading::Fault { offset } => Ok(Answer::NotQuick { offset }),
        Reading::Whole(parser) => rename_read(alloc, bytes, old, new, &parser),
    }
}

/// The fault of a file that has too many bytes.
fn too_long(alloc: Global, bytes: &[u8]) -> Result<Answer, AllocError>
    requires { 16777216 < length bytes.now }
    ensures { IfOk result (AnswersLongFile bytes.now) }
{
    let (front, _) = bytes.split_at(MOST_BYTES);
    let offset = match read(alloc, front)? {
        Reading::Fault { offset } => offset.min(MOST_BYTES),
        Reading::Whole(_) => MOST_BYTES,
    };
    Ok(Answer::NotQuick { offset })
}

/// A file is taken for a renaming or it isn't: the definition leaves nothing open.
pub fn taking_is_decided()
    ensures { TakingIsDecided }
{
    refused_is_unwritten();
    complete_is_written();
    one_reading();
}
