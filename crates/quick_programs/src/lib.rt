//! The quick form and the meaning of C: a project whose one unit is a quick file, behind the line `int putchar(int);`, runs as the quick
//! form says. Here are the definition of such a project (in `specs/`) and the law, the contract of a function without a body.
#![tactic(auto)]

ghost use Rattle.quick_programs.specs.Laws.{QuickRunsAsC};

use quick_core::program_is_of_items;
use quick_trees::tokens_run_alike;
use quick_units::units_give_what_is_present;
use tree_pairs::units_declare_no_number;

/// Where the quick form and C's translation both accept a configuration, both runs give the same answer, at each bound and with each
/// input.
pub fn quick_runs_as_c()
    ensures { QuickRunsAsC }
{
    units_give_what_is_present();
    units_declare_no_number();
    program_is_of_items();
    tokens_run_alike();
}
