//! A project whose files are renamed, in a configuration in which a unit may read renamed tokens (ISO/IEC 9899:2011, 5.1.1.2). Here are
//! the definitions (in `specs/`) and the law, the contract of a function without a body of its own.
#![tactic(auto)]

ghost use Rattle.renamed_projects.specs.Laws.{TouchedProjectsRunAlike};

use renamed_products::{products_have_renamed_trees, renamed_products_run_alike};
use renamed_sources::{sources_are_renamed, trees_are_of_sources};

/// Where a renaming may be made and names are bound alike, the program of the renamed project is the one before.
pub fn touched_projects_run_alike()
    ensures { TouchedProjectsRunAlike }
{
    sources_are_renamed();
    trees_are_of_sources();
    products_have_renamed_trees();
    renamed_products_run_alike();
}
