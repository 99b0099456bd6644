//! Objects of one type (6.7, 6.9.2).
ghost use Rattle.std.specs.Prelude.{◌≡◌, ℕ, Bool, List, [], IsTrue, IfOk, option_map};
ghost use Rattle.cond_formula.specs.Features.{has};
ghost use Rattle.cond_formula.specs.Conditions.{condition_of, value};
ghost use Rattle.c_text.specs.Token.{PlainToken, plain_token};
ghost use Rattle.c_types.specs.Types.{PlainType, plain_type};
ghost use Rattle.choice_trees.specs.ChoiceTrees.{plain_item, item_at};
ghost use Rattle.core_meaning.specs.Entities.{Scope};
ghost use Rattle.operand_types.specs.OperandTypes.{renumbered};
ghost use Rattle.plain_objects.specs.PlainStates.{plain_storage};
ghost use Rattle.type_tables.specs.Seen.{seen_tables};
ghost use Rattle.type_tables.specs.Follows.{IsThere, Follows};
ghost use Rattle.conditional_steps.specs.Here.{Here};
ghost use Rattle.cond_units.specs.Seen.{seen_unit, initialiser_at};
ghost use Rattle.cond_units.specs.Values.{is_value_refused};
ghost use Rattle.cond_units.specs.Declaring.{IsInitialiser, object_of_type, Names, DeclaresTyped};

use crate::definitions::define_object;
use crate::fitness::where_unfit;
use crate::following::Behind;
use crate::units::{ObjectDeclaration, UnitTables};
use c_text::Token;
use c_types::CType;
use choice_trees::Item;
use choice_variants::may_hold;
use cond_formula::{Formula, NoMemory, Oracle};
use cond_initialisers::{first_values_are_there, where_first_value_refused};
use conditional_steps::{never, possible_both};
use name_declarations::declare_as;
use plain_scope::copied;
use reduced_conditions::either;
use std::alloc::Global;
use type_tables::{Sort, Tables};

/// Where the first value of an object is refused, if it is given. The object is visible already.
fn where_value_refused<O: Oracle>(
    alloc: Global,
    oracle: &mut O,
    tables: &Tables,
    ty: &CType,
    initialiser: Option<&Item>,
) -> Result<Formula, NoMemory>
    ensures kept { O.admits oracle.new ≡ O.admits oracle.old }
    ensures refused { IfOk result (λ f. (c : List Bool) → IsTrue (value (has c) (O.admits oracle.old))
        → (scope : Scope) (follows : Follows (seen_tables (has c) tables.now) scope) (t : PlainType) → plain_type ty.now ≡ renumbered follows.by t → IsThere scope.structs t
        → scope.blocks ≡ [] → IsInitialiser (option_map (λ item. item_at (has c) (plain_item item.now)) initialiser.entry) → (name : PlainToken) (globals : ℕ)
        → value (has c) (condition_of f) ≡ is_value_refused scope globals t name (option_map (λ item. item_at (has c) (plain_item item.now)) initialiser.entry)) }
{
    match initialiser {
        Some(first) => where_first_value_refused(alloc, oracle, tables, ty, first),
        None => never(),
    }
}

/// The name of an object of the type, where the condition is true. The answer is where the object is refused.
fn declare_name<B: Behind, O: Oracle>(
    alloc: Global,
    oracle: &mut O,
    tables: &mut Tables,
    when: &Formula,
    declaration: &ObjectDeclaration<'_, B>,
    name: &Token,
    ty: &CType,
) -> Result<Formula, NoMemory>
    ensures kept { O.admits oracle.new ≡ O.admits oracle.old }
    ensures names { IfOk result (λ f. (c : List Bool) → IsTrue (value (has c) (O.admits oracle.old))
        → Names (plain_storage declaration.now.storage) (plain_type ty.now) (plain_token name.now) (initialiser_at (has c) declaration.now) (B.rest declaration.now.behind.now c)
        (value (has c) (condition_of when.now)) (seen_tables (has c) tables.old) (seen_tables (has c) tables.new) (value (has c) (condition_of f))) }
{
    let initialised = declaration.initialiser.is_some();
    let storage = declaration.storage;
    let sort = Sort::Object(copied(alloc, ty)?);
    let differs = declare_as(alloc, oracle, tables, when, &name.text, sort, storage)?;
    let unfit = where_unfit(alloc, tables, declaration.behind, storage, initialised, ty)?;
    let invalid = where_value_refused(alloc, oracle, tables, ty, declaration.initialiser)?;
    let refused = either(alloc, unfit, invalid)?;
    let here = possible_both(alloc, oracle, when, &refused)?;
    either(alloc, differs, here)
}

/// An object of the type where the condition is true, whether or not there are such configurations.
fn declare_there<B: Behind, O: Oracle>(
    alloc: Global,
    oracle: &mut O,
    unit: &mut UnitTables,
    when: &Formula,
    declaration: &ObjectDeclaration<'_, B>,
    name: &Token,
    ty: &CType,
) -> Result<Formula, NoMemory>
    ensures kept { O.admits oracle.new ≡ O.admits oracle.old }
    ensures declares { IfOk result (λ f. (c : List Bool) (globals : ℕ) → IsTrue (value (has c) (O.admits oracle.old))
        → Here (value (has c) (condition_of when.now))
        (DeclaresTyped (plain_type ty.now) (object_of_type globals (plain_storage declaration.now.storage) (plain_token name.now) (initialiser_at (has c) declaration.now) (B.rest declaration.now.behind.now c))
        (IsInitialiser (initialiser_at (has c) declaration.now)))
        (seen_unit (has c) unit.old) (seen_unit (has c) unit.new) (value (has c) (condition_of f))) }
{
    first_values_are_there();
    let refused = declare_name(alloc, oracle, &mut unit.tables, when, declaration, name, ty)?;
    define_object(alloc, unit, when, declaration, &name.text)?;
    Ok(refused)
}

/// An object of the type where the condition is true. The answer is where it is refused.
pub(crate) fn declare_typed<B: Behind, O: Oracle>(
    alloc: Global,
    oracle: &mut O,
    unit: &mut UnitTables,
    when: &Formula,
    declaration: &ObjectDeclaration<'_, B>,
    name: &Token,
    ty: &CType,
) -> Result<Formula, NoMemory>
    ensures kept { O.admits oracle.new ≡ O.admits oracle.old }
    ensures declares { IfOk result (λ f. (c : List Bool) (globals : ℕ) → IsTrue (value (has c) (O.admits oracle.old))
        → Here (value (has c) (condition_of when.now))
        (DeclaresTyped (plain_type ty.now) (object_of_type globals (plain_storage declaration.now.storage) (plain_token name.now) (initialiser_at (has c) declaration.now) (B.rest declaration.now.behind.now c))
        (IsInitialiser (initialiser_at (has c) declaration.now)))
        (seen_unit (has c) unit.old) (seen_unit (has c) unit.new) (value (has c) (condition_of f))) }
{
    if !may_hold(when, oracle) {
        return never();
    }
    declare_there(alloc, oracle, unit, when, declaration, name, ty)
}
