//! Worked examples.
ghost use Rattle.selections.specs.Rows.{StructsAreSelectedIn, PointersAreSelectedThrough, SelectionsStandInOthers, NothingIsSelectedElsewhere};

/// The structs in which expressions select as the standard gives them, worked out by hand.
pub fn worked_selections()
    ensures structs { StructsAreSelectedIn }
    ensures pointers { PointersAreSelectedThrough }
    ensures nested { SelectionsStandInOthers }
    ensures elsewhere { NothingIsSelectedElsewhere }
{}
