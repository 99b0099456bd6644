//! A unit to its end, where all structs are complete that it completes (6.9.2).
ghost use Rattle.std.specs.Prelude.{◌≡◌, ℕ, Bool, List, IsTrue, IfOk};
ghost use Rattle.cond_formula.specs.Features.{has};
ghost use Rattle.cond_formula.specs.Conditions.{condition_of, value};
ghost use Rattle.c_tree.specs.declared.kinds.Kind.TheVariants as k;
ghost use Rattle.choice_trees.specs.ChoiceTrees.{plain_choices, parts_at};
ghost use Rattle.cond_units.specs.Seen.{seen_unit};
ghost use Rattle.cond_units.specs.Where.{Where};
ghost use Rattle.cond_types.specs.Steps.{DeclaresToEnd};

use crate::sizes::where_too_big;
use choice_trees::{Choice, Item};
use cond_formula::{Formula, NoMemory, Oracle};
use cond_units::{FileItems, UnitTables, declare_items};
use conditional_steps::possible_both;
use reduced_conditions::either;
use std::alloc::Global;

/// The items of a unit to its end, where the condition is true. The answer is where the unit is refused.
pub(crate) fn declare_to_end<F: FileItems, O: Oracle>(
    alloc: Global,
    oracle: &mut O,
    file_items: &F,
    unit: &mut UnitTables,
    when: &Formula,
    items: &[Choice<Item>],
) -> Result<Formula, NoMemory>
    ensures kept { O.admits oracle.new ≡ O.admits oracle.old }
    ensures declares { IfOk result (λ f. (c : List Bool) (globals : ℕ) → IsTrue (value (has c) (O.admits oracle.old))
        → Where (value (has c) (condition_of when.now)) (DeclaresToEnd globals (parts_at (has c) k.Unit 0 (plain_choices items.now))) (seen_unit (has c) unit.old) (seen_unit (has c) unit.new) (value (has c) (condition_of f))) }
{
    let refused = declare_items(alloc, oracle, file_items, unit, when, items)?;
    let too_big = where_too_big(alloc, oracle, &unit.tables, items)?;
    let big_here = possible_both(alloc, oracle, when, &too_big)?;
    let f = either(alloc, refused, big_here)?;
    Ok(f)
}
