//! Laws of trees with other tokens.

ghost use Rattle.changed_forests.specs.Laws.{ChangesAreSeen, RenamingsAreSeen, NumberingsAreSeen, SitesDontMatter};

/// Each configuration sees the tokens that it saw, changed, and they keep their numbers.
pub fn changes_are_seen()
    ensures { ChangesAreSeen }
{}

/// Projecting goes together with renaming: each configuration sees the renamed tree of what it saw.
pub fn renamings_are_seen()
    ensures { RenamingsAreSeen }
{}

/// Each configuration sees the same tree of trees whose tokens tell their numbers, but for the sites of the tokens.
pub fn numberings_are_seen()
    ensures { NumberingsAreSeen }
{}

/// Units that differ in the sites of their tokens alone are judged the same, one by one and as a program: what their identifiers stand for, and
/// what they leave.
pub fn sites_dont_matter()
    ensures { SitesDontMatter }
{}
