//! Laws of the expressions of `#if`. Each function is its contract alone.
ghost use Rattle.pp_lines.specs.Laws.{ValuesAreOne, ValuesAreDecided, ValuesAreRead};

/// Tokens have one value at most.
pub fn values_are_one()
    ensures { ValuesAreOne }
{}

/// Of any tokens it is settled whether they have a value, and which one.
pub fn values_are_decided()
    ensures { ValuesAreDecided }
{}

/// What the reader of expressions makes of tokens is their value, or tells that they have none.
pub fn values_are_read()
    ensures { ValuesAreRead }
{}
