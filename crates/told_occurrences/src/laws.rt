//! Laws of what is told of units. Each function is its contract.
ghost use Rattle.told_occurrences.specs.Laws.{PairsTellBindings};

/// Two units whose identifiers have the same numbers have the same pairs exactly where they bind them alike.
pub fn pairs_tell_bindings()
    ensures { PairsTellBindings }
{
    program_occurrences::declarations_are_occurrences();
}
