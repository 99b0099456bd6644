//! The programs of products are found: a law of the definitions in `project_program`, the contract of a function without a body of its own.
#![tactic(auto)]

ghost use Rattle.product_programs.specs.Laws.{ProgramsAreFound};

use c_tree::{tokens_spell_one_unit, what_is_read_is_spelt, what_is_spelt_is_read};
use plain_pp::outcomes_are_one;
use project_program::programs_are_one;
use unit_outcomes::units_have_outcomes;

/// A product that can't lack a program has one.
pub fn programs_are_found()
    ensures { ProgramsAreFound }
{
    units_have_outcomes();
    what_is_read_is_spelt();
    what_is_spelt_is_read();
    tokens_spell_one_unit();
    outcomes_are_one();
    programs_are_one();
}
