//! Laws of the words of `rename`. Each function is its contract alone.
ghost use Rattle.rename_words.specs.Laws.{AsksAreOne, FitsAreAlike, FitsAreOne};

/// Words ask for one renaming at most.
pub fn asks_are_one()
    ensures { AsksAreOne }
{}

/// Words that fit a project name one of its files.
pub fn fits_are_one()
    ensures { FitsAreOne }
{}

/// Words fit all projects that one file says, or none, and name the same file of each.
pub fn fits_are_alike()
    ensures { FitsAreAlike }
{}
