//! Laws of analyses and classes. Each function is its contract.
ghost use Rattle.rename_op.specs.Analysed.{AnalysesAreTold, AnalysesHaveTrees, AnalysesTellWell, ClassesMayGetNames, IdentifiersAreRenamed};

use c_tree::tokens_spell_one_unit;
use changed_forests::{changes_are_seen, numberings_are_seen, sites_dont_matter};
use class_occurrences::tests_are_of_preconditions;
use linked_otherwise::closed_are_renamed_together;
use moved_trees::units_stay_units;
use plain_pp::outcomes_are_one;
use program_occurrences::{declarations_are_occurrences, tokens_bring_back};
use project_program::programs_are_one;
use renamed_classes::{classes_stand_in_files, occurrences_have_one_name};
use sited_names::{sites_dont_name, sites_dont_tie};
use told_ties::ties_are_seen;
use unit_outcomes::tokens_are_spelt;

/// In each product the units of an analysed project are parsed, and told by the numbers of their tokens.
pub fn analyses_are_told()
    ensures { AnalysesAreTold }
{}

/// What a product's configuration sees of the trees whose tokens tell their numbers are the trees of its program, but for sites.
pub fn analyses_have_trees()
    ensures { AnalysesHaveTrees }
{
    programs_are_one();
    outcomes_are_one();
    tokens_spell_one_unit();
    numberings_are_seen();
}

/// These trees are judged well, and told by the numbers of their tokens and by the names that tokens of files declare.
pub fn analyses_tell_well()
    ensures { AnalysesTellWell }
{
    programs_are_one();
    tokens_are_spelt();
    changes_are_seen();
    sites_dont_matter();
    sites_dont_name();
    sites_dont_tie();
    ties_are_seen();
    units_stay_units();
    analyses_have_trees();
}

/// A class that is renamed, of which nothing comes out of the body of a macro, has all declarations of a name in them or none, and one old name; with a
/// good new one they are written well.
pub fn classes_may_get_names()
    ensures { ClassesMayGetNames }
{
    declarations_are_occurrences();
    tokens_bring_back();
    sites_dont_name();
    sites_dont_tie();
    units_stay_units();
    tests_are_of_preconditions();
    closed_are_renamed_together();
    occurrences_have_one_name();
    analyses_have_trees();
    analyses_tell_well();
}

/// Where nothing of the class is fixed either, the identifiers that copy a token of its list are those that its renaming renames.
pub fn identifiers_are_renamed()
    ensures { IdentifiersAreRenamed }
{
    tests_are_of_preconditions();
    classes_stand_in_files();
}
