//! Objects of one type (6.7).
ghost use Rattle.std.specs.Prelude.{◌≡◌, ℕ, Bool, not, ◌&&◌, List, IsTrue, IfOk, OnOk, option_map};
ghost use Rattle.cond_formula.specs.Features.{has};
ghost use Rattle.cond_formula.specs.Conditions.{condition_of, value};
ghost use Rattle.c_text.specs.Token.{PlainToken, plain_token};
ghost use Rattle.c_types.specs.Types.{PlainType, plain_type};
ghost use Rattle.choice_trees.specs.ChoiceTrees.{plain_item, item_at};
ghost use Rattle.core_meaning.specs.Entities.{Scope};
ghost use Rattle.core_meaning.specs.Declarations.{local_initial};
ghost use Rattle.operand_types.specs.OperandTypes.{renumbered};
ghost use Rattle.statement_readings.specs.Walks.{is_refused};
ghost use Rattle.type_tables.specs.Tables.{is_complete_type, is_small};
ghost use Rattle.type_tables.specs.Seen.{seen_tables};
ghost use Rattle.type_tables.specs.Follows.{IsThere, Follows};
ghost use Rattle.type_tables.specs.Blocks.{OnlyLocals};
ghost use Rattle.conditional_steps.specs.Here.{Here};
ghost use Rattle.cond_locals.specs.Declaring.{IsInitialiser, IsDeclared};

use c_text::Token;
use c_types::CType;
use choice_trees::Item;
use choice_variants::may_hold;
use cond_formula::{Formula, NoMemory, Oracle};
use cond_initialisers::where_initialiser_refused;
use conditional_steps::{never, possible_both};
use plain_scope::copied;
use reduced_conditions::{both, either};
use std::alloc::Global;
use type_tables::Tables;

/// Where no object is of the type: it isn't complete, or too big.
fn where_unfit(alloc: Global, tables: &Tables, ty: &CType) -> Result<Formula, NoMemory>
    ensures { IfOk result (λ f. (on : ℕ → Bool) → value on (condition_of f) ≡ not (is_complete_type (seen_tables on tables.now) (plain_type ty.now) && is_small (seen_tables on tables.now) (plain_type ty.now))) }
{
    let complete = tables.where_complete(alloc, ty)?;
    let small = tables.where_small(alloc, ty)?;
    let fits = both(alloc, complete, small)?;
    Formula::not(alloc, fits)
}

/// Where the initialiser of a local is refused, if it has one. The local is visible already.
fn where_value_refused<O: Oracle>(
    alloc: Global,
    oracle: &mut O,
    tables: &Tables,
    ty: &CType,
    initialiser: Option<&Item>,
) -> Result<Formula, NoMemory>
    ensures kept { O.admits oracle.new ≡ O.admits oracle.old }
    ensures refused { IfOk result (λ f. (c : List Bool) → IsTrue (value (has c) (O.admits oracle.old))
        → (scope : Scope) (follows : Follows (seen_tables (has c) tables.now) scope) (t : PlainType) → plain_type ty.now ≡ renumbered follows.by t → IsThere scope.structs t
        → IsInitialiser (option_map (λ item. item_at (has c) (plain_item item.now)) initialiser.entry) → (name : PlainToken)
        → value (has c) (condition_of f) ≡ is_refused (local_initial scope t name (option_map (λ item. item_at (has c) (plain_item item.now)) initialiser.entry))) }
{
    match initialiser {
        Some(value) => where_initialiser_refused(alloc, oracle, tables, ty, value),
        None => never(),
    }
}

/// A local of the type where the condition is true, whether or not there are such configurations.
fn declare_there<O: Oracle>(
    alloc: Global,
    oracle: &mut O,
    tables: &mut Tables,
    when: &Formula,
    name: &Token,
    ty: &CType,
    initialiser: Option<&Item>,
) -> Result<Formula, NoMemory>
    ensures kept { O.admits oracle.new ≡ O.admits oracle.old }
    ensures outside { OnOk result (OnlyLocals tables.old tables.new) }
    ensures declares { IfOk result (λ f. (c : List Bool) → IsTrue (value (has c) (O.admits oracle.old))
        → Here (value (has c) (condition_of when.now)) (IsDeclared (plain_type ty.now) (plain_token name.now) (option_map (λ item. item_at (has c) (plain_item item.now)) initialiser.entry))
        (seen_tables (has c) tables.old) (seen_tables (has c) tables.new) (value (has c) (condition_of f))) }
{
    let unfit = where_unfit(alloc, tables, ty)?;
    let here = when.try_clone(alloc)?;
    let copy = copied(alloc, ty)?;
    tables.declare_local(alloc, &name.text, here, copy)?;
    let invalid = where_value_refused(alloc, oracle, tables, ty, initialiser)?;
    let refused = either(alloc, unfit, invalid)?;
    possible_both(alloc, oracle, when, &refused)
}

/// A local of the type where the condition is true, in the innermost block. The answer is where it is refused.
pub(crate) fn declare_object<O: Oracle>(
    alloc: Global,
    oracle: &mut O,
    tables: &mut Tables,
    when: &Formula,
    name: &Token,
    ty: &CType,
    initialiser: Option<&Item>,
) -> Result<Formula, NoMemory>
    ensures kept { O.admits oracle.new ≡ O.admits oracle.old }
    ensures outside { OnOk result (OnlyLocals tables.old tables.new) }
    ensures declares { IfOk result (λ f. (c : List Bool) → IsTrue (value (has c) (O.admits oracle.old))
        → Here (value (has c) (condition_of when.now)) (IsDeclared (plain_type ty.now) (plain_token name.now) (option_map (λ item. item_at (has c) (plain_item item.now)) initialiser.entry))
        (seen_tables (has c) tables.old) (seen_tables (has c) tables.new) (value (has c) (condition_of f))) }
{
    if !may_hold(when, oracle) {
        return never();
    }
    declare_there(alloc, oracle, tables, when, name, ty, initialiser)
}
