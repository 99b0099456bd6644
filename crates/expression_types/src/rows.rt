//! Worked examples.
ghost use Rattle.expression_types.specs.Rows.{NumbersAreConverted, PointersAreMoved, ResultsAreOne, MembersAreSelected, ArraysAreIndexed, FunctionsAreCalled, ObjectsAreChanged};

/// The types of expressions as the standard gives them, worked out by hand.
pub fn worked_types()
    ensures numbers { NumbersAreConverted }
    ensures pointers { PointersAreMoved }
    ensures results { ResultsAreOne }
    ensures members { MembersAreSelected }
    ensures arrays { ArraysAreIndexed }
    ensures functions { FunctionsAreCalled }
    ensures objects { ObjectsAreChanged }
{}
