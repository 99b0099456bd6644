//! Laws of runs, and of judgements. Each function is its contract alone.
ghost use Rattle.core_meaning.specs.Growth.{RunsGrow, PiecesGrow, ReachingIsTransitive, LargerBoundReaches};
ghost use Rattle.core_meaning.specs.Judgings.{JudgingsListAlike, NoUnitsAreLeftOut};

/// A larger bound keeps the answer of a run that has ended or is undefined, and only lengthens the output of one that the
/// bound cut off.
pub fn runs_grow()
    ensures { RunsGrow }
{}

/// The same of each expression, place, list of arguments, statement, list of items, call and turn of a loop.
pub fn pieces_grow()
    ensures { PiecesGrow }
{}

/// What is reached by an answer is reached by what that answer is reached by.
pub fn reaching_is_transitive()
    ensures { ReachingIsTransitive }
{}

/// A run that isn't undefined at a bound reaches what it came to at each smaller one, which so isn't undefined either.
pub fn a_larger_bound_reaches()
    ensures { LargerBoundReaches }
{}

/// Units that are judged with other numbers of their names list the same objects and functions, in the same order.
pub fn judgings_list_alike()
    ensures { JudgingsListAlike }
{}

/// Of each list of trees one holds: it has a core program, a type is refused, its units don't link, or a tree is none of the
/// grammar.
pub fn no_units_are_left_out()
    ensures { NoUnitsAreLeftOut }
{}
