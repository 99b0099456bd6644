//! Lists of parameters of declarations that define nothing (6.7.6.3).
ghost use Rattle.std.specs.Prelude.{◌≡◌, ℕ, Bool, true, false, List, Some, IsTrue, IfOk, OnOk};
ghost use Rattle.cond_formula.specs.Features.{has};
ghost use Rattle.cond_formula.specs.Conditions.{condition_of, value};
ghost use Rattle.conditional.specs.Entries.{seen, listed};
ghost use Rattle.c_text.specs.Token.{PlainToken};
ghost use Rattle.choice_trees.specs.ChoiceTrees.{plain_item, item_at};
ghost use Rattle.core_meaning.specs.Declarations.{parameters_of};
ghost use Rattle.core_meaning.specs.Entities.{Scope};
ghost use Rattle.type_tables.specs.Forms.{declared_type_form};
ghost use Rattle.type_tables.specs.Seen.{seen_tables};
ghost use Rattle.type_tables.specs.Follows.{Follows};
ghost use Rattle.cond_parameters.specs.Parameters.{IsList};
ghost use Rattle.cond_units.specs.Functions.{GivesTypes};

use choice_trees::Item;
use cond_formula::{Formula, NoMemory, Oracle};
use cond_parameters::{DeclaredParameters, declare_parameters};
use std::alloc::Global;
use type_tables::Tables;

/// The parameters of a list where the condition is true. None of them is visible behind it.
pub(crate) fn read_parameters<O: Oracle>(
    alloc: Global,
    oracle: &mut O,
    tables: &mut Tables,
    when: &Formula,
    list: &Item,
) -> Result<DeclaredParameters, NoMemory>
    ensures kept { O.admits oracle.new ≡ O.admits oracle.old }
    ensures same { OnOk result ((on : ℕ → Bool) → seen_tables on tables.new ≡ seen_tables on tables.old) }
    ensures elsewhere { IfOk result (λ all. (c : List Bool) → IsTrue (value (has c) (O.admits oracle.old)) → value (has c) (condition_of when.now) ≡ false → value (has c) (condition_of all.refused) ≡ false) }
    ensures given { IfOk result (λ all. (c : List Bool) (scope : Scope) (follows : Follows (seen_tables (has c) tables.old) scope) (behind : PlainToken)
        → IsTrue (value (has c) (O.admits oracle.old)) → value (has c) (condition_of when.now) ≡ true → IsList (item_at (has c) (plain_item list.now))
        → GivesTypes follows.by scope (parameters_of false scope (Some (item_at (has c) (plain_item list.now))) behind)
        (seen (has c) (listed declared_type_form all.types)) (value (has c) (condition_of all.refused))) }
{
    let outside = tables.enter()?;
    let all = declare_parameters(alloc, oracle, tables, false, when, list)?;
    tables.leave(outside);
    Ok(all)
}
