//! Statements read by the kinds of their nodes (in `specs/`), and the law that this is how they are judged (ISO/IEC 9899:2011, 6.8), the contract of
//! a function that computes nothing.
#![tactic(auto)]

ghost use Rattle.statement_readings.specs.Laws.{BodiesAreRead};

/// The reading of a function's block is refused exactly where its judgement is.
pub fn bodies_are_read()
    ensures { BodiesAreRead }
{}
