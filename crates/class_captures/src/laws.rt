//! What is true of links that declared names tell, with no code.
ghost use Rattle.class_captures.specs.Laws.{LinksAreToldByNames};

use told_ties::ties_are_seen;

/// The law that declared names which tell the units of a configuration tell whether one of their declarations is linked otherwise, to be cited in
/// proofs; the call does nothing.
pub fn links_are_told_by_names()
    ensures { LinksAreToldByNames }
{
    ties_are_seen();
}
