//! How the files of a unit are read, with no code.
ghost use Rattle.unit_files.specs.Laws.{SourcesAreWalked, SourcesBreak};

use c_lexer::lines_are_one;
use file_walks::{files_break, parts_are_walked};

/// The law that a source is read by a walk over its lines; the call does nothing.
pub fn sources_are_walked()
    ensures { SourcesAreWalked }
{
    lines_are_one();
    parts_are_walked();
}

/// The law that a source breaks at its first line that fits no group, or else at the end of its file.
pub fn sources_break()
    ensures { SourcesBreak }
{
    lines_are_one();
    files_break();
}
