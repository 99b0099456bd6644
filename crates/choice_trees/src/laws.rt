//! The law on the leaves of trees with alternatives.
ghost use Rattle.choice_trees.specs.Leaves.{LeavesAreSpelled};

/// The tree that a configuration sees spells the tokens that it sees, in every configuration.
pub fn leaves_are_spelled()
    ensures { LeavesAreSpelled }
{}
