ghost use Rattle.project_store.specs.Faults.{RoseIsGreaterOrLast, RiseStays};

/// A law on counts of faults, stated by its contract: what it is for a count to rise.
pub fn rising_is_growing_or_standing_at_the_end()
    ensures { RoseIsGreaterOrLast }
{}

/// A law on counts of faults, stated by its contract: the parts of a run and the whole.
pub fn a_rise_stays()
    ensures { RiseStays }
{}
