//! What is true of the lines of texts, with no code.
ghost use Rattle.c_lexer.specs.Laws.{LinesAreOne, TextsHaveLines};

/// The law that a text has one list of lines at most, to be cited in proofs; the call does nothing.
pub fn lines_are_one()
    ensures { LinesAreOne }
{}

/// The law that each text has lines, to be cited in proofs; the call does nothing.
pub fn texts_have_lines()
    ensures { TextsHaveLines }
{}
