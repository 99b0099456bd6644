//! The law that what the trees of a product tell of captures is so of the files.
ghost use Rattle.rename_op.specs.Captures.{CapturesAreOfTrees};

use c_tree::tokens_spell_one_unit;
use moved_names::moves_dont_name;
use plain_pp::outcomes_are_one;
use renamed_products::products_have_renamed_trees;
use renamed_sources::{sources_are_renamed, trees_are_of_sources};

/// The trees of a product tell whether the project with its files renamed is accepted, and binds and links each identifier as before.
pub fn captures_are_of_trees()
    ensures { CapturesAreOfTrees }
{
    sources_are_renamed();
    trees_are_of_sources();
    products_have_renamed_trees();
    outcomes_are_one();
    tokens_spell_one_unit();
    moves_dont_name();
}
