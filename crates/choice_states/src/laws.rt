//! The laws on tokens that are read with their numbers.
ghost use Rattle.choice_states.specs.Reading.{TreesAreRead, LeavesAreTheTokens, UnitsAreSeen};

/// Tokens with numbers are read as the tree that they are read as without.
pub fn trees_are_read()
    ensures { TreesAreRead }
{}

/// The leaves of what tokens are read as are those tokens, in their order and with their numbers.
pub fn leaves_are_the_tokens()
    ensures { LeavesAreTheTokens }
{}

/// What is seen of a unit is made of what is seen of its items.
pub fn units_are_seen()
    ensures { UnitsAreSeen }
{}
