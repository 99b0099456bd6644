//! What is true of controlling expressions, with no code.

ghost use Rattle.cond_formula.specs.Readings.{OneReading};

/// The law that the text of a controlling expression has one meaning, to be cited in proofs; the call does nothing.
pub fn expression_texts_have_one_meaning()
    ensures { OneReading }
{}
