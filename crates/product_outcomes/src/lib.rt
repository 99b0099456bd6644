//! What becomes of products: a law of the definitions in `project_program`, the contract of a function without a body.
#![tactic(auto)]

ghost use Rattle.product_outcomes.specs.Laws.{NoProductIsLeftOut};

use bindings::programs_are_judged;
use c_tree::{tokens_spell_one_unit, what_is_read_is_spelt, what_is_spelt_is_read};
use core_meaning::no_units_are_left_out;
use unit_outcomes::{tokens_are_spelt, units_have_outcomes};

/// A product has a program, or a stage of translation refuses it.
pub fn no_product_is_left_out()
    ensures { NoProductIsLeftOut }
{
    units_have_outcomes();
    tokens_are_spelt();
    what_is_read_is_spelt();
    what_is_spelt_is_read();
    tokens_spell_one_unit();
    programs_are_judged();
    no_units_are_left_out();
}
