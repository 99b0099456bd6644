//! The law on constants.
ghost use Rattle.cond_sizes.specs.Laws.{CountsNeedNoNames};

/// What comes of a size is the same whatever is visible and whatever stands behind it.
pub fn counts_need_no_names()
    ensures { CountsNeedNoNames }
{}
