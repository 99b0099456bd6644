//! Configurations in which no token of a reference class is read (ISO/IEC 9899:2011, 6.10.1): to rename the class changes nothing that
//! comes of them. Here are the laws (in `specs/`), each the contract of a function without a body.
#![tactic(auto)]

ghost use Rattle.untouched_classes.specs.Laws.{ClassesAreTouchedOrNot, UntouchedClassesKeepProducts, UntouchedClassesKeepOutcomes};

use untouched_projects::{
    touching_is_decided, untouched_projects_keep_programs, untouched_projects_keep_refusals,
    untouched_units_keep_outcomes,
};

/// A configuration is touched by a class that is renamed, or no unit reads a renamed token in it.
pub fn classes_are_touched_or_not()
    ensures { ClassesAreTouchedOrNot }
{
    touching_is_decided();
}

/// A configuration that isn't touched keeps its program, or the stage that refuses it.
pub fn untouched_classes_keep_products()
    ensures { UntouchedClassesKeepProducts }
{
    untouched_projects_keep_programs();
    untouched_projects_keep_refusals();
}

/// There each unit gives tokens of the same spellings as before, or is refused for the same reason.
pub fn untouched_classes_keep_outcomes()
    ensures { UntouchedClassesKeepOutcomes }
{
    untouched_units_keep_outcomes();
}
