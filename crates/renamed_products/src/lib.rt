//! The products of a project whose files are renamed (ISO/IEC 9899:2011, 5.1.1.2): the trees and core programs of its units in one
//! configuration. Here are the definitions (in `specs/`) and the laws, each the contract of a function without a body.
#![tactic(auto)]

ghost use Rattle.renamed_products.specs.Laws.{ProductsHaveRenamedTrees, RenamedProductsRunAlike, UntouchedProductsAreAlike};

use active_tokens::tokens_come_from_active;
use c_lexer::{lines_are_one, texts_have_lines};
use file_walks::lines_have_parts;
use pp_lines::values_are_decided;
use read_walks::files_have_misplaced;
use renamed_programs::elaborations_are_alike;
use renamed_trees::trees_are_renamed;
use renamed_units::{renamed_are_names, units_are_renamed, untouched_units_are_alike};
use renamings::{places_keep_their_order, tokens_stand_apart};

/// Where names may be renamed, the units of the renamed files have the renamed trees and no others, and these differ from the old ones
/// only in names.
pub fn products_have_renamed_trees()
    ensures { ProductsHaveRenamedTrees }
{
    units_are_renamed();
    renamed_are_names();
    trees_are_renamed();
    texts_have_lines();
    lines_have_parts();
    values_are_decided();
}

/// So they have the same core program, where both have one and their names are bound and linked alike.
pub fn renamed_products_run_alike()
    ensures { RenamedProductsRunAlike }
{
    products_have_renamed_trees();
    elaborations_are_alike();
}

/// Where no unit reads a renamed token, the units of the renamed files have the same trees at other places, or are refused as before.
pub fn untouched_products_are_alike()
    ensures { UntouchedProductsAreAlike }
{
    untouched_units_are_alike();
    renamed_are_names();
    trees_are_renamed();
    texts_have_lines();
    lines_have_parts();
    values_are_decided();
    files_have_misplaced();
    tokens_come_from_active();
    tokens_stand_apart();
    places_keep_their_order();
}
