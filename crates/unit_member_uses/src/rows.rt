//! Worked examples.
ghost use Rattle.unit_member_uses.specs.Rows.{BlocksHide, DeclarationsUseNothing, ForIsABlock, LocalsAreVisibleBehind};

/// The members that identifiers of units use as the standard gives them, worked out by hand.
pub fn worked_uses()
    ensures blocks { BlocksHide }
    ensures locals { LocalsAreVisibleBehind }
    ensures loops { ForIsABlock }
    ensures declarations { DeclarationsUseNothing }
{}
