//! Configurations of a project in which no unit reads a token that is renamed (ISO/IEC 9899:2011, 5.1.1.2, 6.10.1): what comes of them
//! stays. Here are the definitions (in `specs/`) and the laws, each the contract of a function without a body.
#![tactic(auto)]

ghost use Rattle.untouched_projects.specs.Laws.{RenamedTreesAreMoved, UntouchedUnitsKeepOutcomes, UntouchedProjectsKeepPrograms, UntouchedProjectsKeepRefusals, TouchingIsDecided};

use c_lexer::lines_are_one;
use file_walks::{files_break, parts_are_walked};
use moved_programs::places_dont_matter;
use plain_pp::{outcomes_are_one, projects_have_syntax};
use read_walks::{files_have_misplaced, reads_are_walked};
use renamed_products::untouched_products_are_alike;
use renamed_sources::{sources_are_renamed, trees_are_of_sources};
use renamed_trees::trees_are_renamed;
use renamed_units::{renamed_are_names, untouched_units_are_alike};
use unit_outcomes::units_have_outcomes;

/// To rename a tree's tokens is to put them elsewhere, and nothing more where their spellings stay.
pub fn renamed_trees_are_moved()
    ensures { RenamedTreesAreMoved }
{}

/// Where no unit reads a renamed token, each unit gives tokens of the same spellings as before, or is refused for the same reason.
pub fn untouched_units_keep_outcomes()
    ensures { UntouchedUnitsKeepOutcomes }
{
    untouched_units_are_alike();
    renamed_are_names();
    sources_are_renamed();
    units_have_outcomes();
    outcomes_are_one();
}

/// There the project has the program that it had, and no other.
pub fn untouched_projects_keep_programs()
    ensures { UntouchedProjectsKeepPrograms }
{
    untouched_units_are_alike();
    renamed_are_names();
    sources_are_renamed();
    units_have_outcomes();
    outcomes_are_one();
    trees_are_renamed();
    trees_are_of_sources();
    untouched_products_are_alike();
    places_dont_matter();
}

/// And where a stage of translation refused it, the same stage does.
pub fn untouched_projects_keep_refusals()
    ensures { UntouchedProjectsKeepRefusals }
{
    untouched_units_are_alike();
    renamed_are_names();
    sources_are_renamed();
    units_have_outcomes();
    outcomes_are_one();
    trees_are_renamed();
    trees_are_of_sources();
    untouched_products_are_alike();
    places_dont_matter();
}

/// In each configuration it is decided whether a unit reads a renamed token.
pub fn touching_is_decided()
    ensures { TouchingIsDecided }
{
    sources_are_renamed();
    projects_have_syntax();
    parts_are_walked();
    files_break();
    lines_are_one();
    reads_are_walked();
    files_have_misplaced();
}
