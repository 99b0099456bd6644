//! What is true of least assignments, with no code.

ghost use Rattle.clause_search.specs.Least.{LeastOnFirstLaw, OneLeastLaw, VariablesLaw};

/// What is least on all variables is least on the first of them. The call does nothing.
pub fn least_is_least_on_the_first_variables()
    ensures { LeastOnFirstLaw }
{}

/// There is one least assignment at most. The call does nothing.
pub fn least_assignments_are_the_same()
    ensures { OneLeastLaw }
{}

/// Whether clauses hold depends on their variables alone. The call does nothing.
pub fn clauses_depend_on_their_variables()
    ensures { VariablesLaw }
{}
