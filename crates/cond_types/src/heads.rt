//! Definitions of functions of which it is known what their declarators say (6.9.1).
ghost use Rattle.std.specs.Prelude.{◌≡◌, ℕ, Bool, not, ◌||◌, IfOk};
ghost use Rattle.cond_formula.specs.Features.{has};
ghost use Rattle.cond_formula.specs.Conditions.{condition_of, value};
ghost use Rattle.c_types.specs.Types.{plain_type};
ghost use Rattle.c_tree.specs.Grammar.{block};
ghost use Rattle.tree_derivations.specs.Derivations.{Derivation};
ghost use Rattle.choice_trees.specs.ChoiceTrees.{plain_item, item_at};
ghost use Rattle.core_meaning.specs.Expressions as expressions;
ghost use Rattle.plain_objects.specs.PlainStates.{plain_storage};
ghost use Rattle.type_tables.specs.Tables.{is_complete_type};
ghost use Rattle.type_tables.specs.Seen.{seen_tables};
ghost use Rattle.cond_types.specs.Definitions.{definition_of_head};

use crate::blocks::declare_with_block;
use c_types::CType;
use choice_trees::Item;
use cond_formula::{Formula, NoMemory, Oracle};
use cond_units::{FunctionHead, HeadReader, UnitTables, behind_stars, define};
use conditional_steps::{both_of, never};
use name_declarations::where_no_such_function;
use plain_objects::Storage;
use plain_scope::is_void;
use reduced_conditions::{either, without};
use std::alloc::Global;
use type_tables::Tables;

/// A definition of a function, of which the head is read elsewhere.
#[derive(Clone, Copy)]
pub(crate) struct FunctionDefinition<'b> {
    pub(crate) storage: Storage,
    pub(crate) body: &'b Item,
}

/// Where no function that is defined may return the type: it is neither `void` nor complete.
fn where_no_result(alloc: Global, tables: &Tables, returns: &CType) -> Result<Formula, NoMemory>
    ensures { IfOk result (λ f. (on : ℕ → Bool) → value on (condition_of f) ≡ not (expressions.is_void (plain_type returns.now) || is_complete_type (seen_tables on tables.now) (plain_type returns.now))) }
{
    if is_void(returns) {
        return never();
    }
    let complete = tables.where_complete(alloc, returns)?;
    Formula::not(alloc, complete)
}

impl<'b> HeadReader for FunctionDefinition<'b> {
    ghost judged = { λ self c. definition_of_head (plain_storage self.storage) (item_at (has c) (plain_item self.body.now)) };

    ghost ready = { λ self c. Derivation block (item_at (has c) (plain_item self.body.now)) };

    fn read_head<O: Oracle>(
        &self,
        alloc: Global,
        oracle: &mut O,
        unit: &mut UnitTables,
        when: &Formula,
        head: &FunctionHead<'_>,
        ty: &CType,
    ) -> Result<Formula, NoMemory> {
        let name = head.name;
        let returns = behind_stars(alloc, head.stars, ty)?;
        let tables = &mut unit.tables;
        let unfit = where_no_result(alloc, tables, &returns)?;
        let other = where_no_such_function(
            alloc,
            oracle,
            tables,
            when,
            &name.text,
            &returns,
            self.storage,
        )?;
        let impossible = either(alloc, unfit, other)?;
        let conflicting = both_of(alloc, when, &impossible)?;
        let possible = when.try_clone(alloc)?;
        let here = without(alloc, possible, &impossible)?;
        let invalid = declare_with_block(alloc, oracle, tables, &here, self, head, &returns)?;
        define(alloc, unit, &here, &name.text, false)?;
        let refused = either(alloc, conflicting, invalid)?;
        Ok(refused)
    }
}
