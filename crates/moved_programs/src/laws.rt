//! The law of units whose tokens stand elsewhere. The function is its contract.
ghost use Rattle.moved_programs.specs.Laws.{PlacesDontMatter};

/// Units whose tokens are put elsewhere, those at different places to different places and those at one place to one, have the same core
/// program. Where a type is refused, it is at the same token; where they don't link, it is by the same name. And they have no other program
/// or fault than they had before.
pub fn places_dont_matter()
    ensures { PlacesDontMatter }
{}
