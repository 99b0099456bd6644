//! The reading of a file told line by line, which is what code does: the walk over its lines (in `specs/`), and the laws that
//! tie it to the definition by groups (ISO/IEC 9899:2011, 6.10.1), each the contract of a function without a body.
#![tactic(auto)]

ghost use Rattle.file_walks.specs.Laws.{LinesHaveParts, PartsAreWalked, FilesBreak};

/// Lines can be read as parts, whatever they are.
pub fn lines_have_parts()
    ensures { LinesHaveParts }
{}

/// The part of a file is read by a walk over its lines.
pub fn parts_are_walked()
    ensures { PartsAreWalked }
{}

/// A file breaks at its first line that fits no group, or else at its end.
pub fn files_break()
    ensures { FilesBreak }
{}
