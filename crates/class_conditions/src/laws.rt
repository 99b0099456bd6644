//! What the conditions say of the products of a project. Each function is its contract.
ghost use Rattle.class_conditions.specs.Laws.{ToldPassAsOccurrences, ConditionsTellPreconditions};

use c_tree::tokens_spell_one_unit;
use changed_forests::{changes_are_seen, numberings_are_seen};
use choice_trees::leaves_are_spelled;
use class_occurrences::tests_are_of_preconditions;
use plain_pp::outcomes_are_one;
use program_occurrences::declarations_are_occurrences;
use project_program::programs_are_one;
use sited_names::sites_dont_name;

/// What is told of units passes a test exactly where an occurrence of these units passes it.
pub fn told_pass_as_occurrences()
    ensures { ToldPassAsOccurrences }
{
    declarations_are_occurrences();
    leaves_are_spelled();
    changes_are_seen();
    numberings_are_seen();
    sites_dont_name();
}

/// In a product the conditions are true exactly where an occurrence of the class stands in the way.
pub fn conditions_tell_preconditions()
    ensures { ConditionsTellPreconditions }
{
    programs_are_one();
    outcomes_are_one();
    tokens_spell_one_unit();
    tests_are_of_preconditions();
    told_pass_as_occurrences();
}
