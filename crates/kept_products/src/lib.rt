//! To rename a reference class keeps the products of a project (ISO/IEC 9899:2011, 5.1.1.2): a law of the definitions in
//! `renamed_classes`, the contract of a function without a body of its own.
#![tactic(auto)]

ghost use Rattle.kept_products.specs.Laws.{RenamingsKeepProducts};

use project_program::programs_are_one;
use renamed_classes::{classes_may_be_renamed, touched_classes_keep_programs};
use untouched_classes::classes_are_touched_or_not;
use untouched_projects::{untouched_projects_keep_programs, untouched_projects_keep_refusals};

/// A class that is renamed as it may be leaves each admitted configuration the program that it had, or the stage that refuses it.
pub fn renamings_keep_products()
    ensures { RenamingsKeepProducts }
{
    programs_are_one();
    classes_may_be_renamed();
    touched_classes_keep_programs();
    classes_are_touched_or_not();
    untouched_projects_keep_programs();
    untouched_projects_keep_refusals();
}
