//! Expressions among the parts of statements.
ghost use Rattle.std.specs.Prelude.{◌≡◌, ℕ, Bool, true, false, List, IsTrue, IfOk};
ghost use Rattle.c_tree.specs.declared.kinds.Kind.TheVariants as k;
ghost use Rattle.cond_formula.specs.Features.{has};
ghost use Rattle.cond_formula.specs.Conditions.{condition_of, value};
ghost use Rattle.c_types.specs.Types.{PlainType};
ghost use Rattle.conditional.specs.Entries.{alternatives, Stands};
ghost use Rattle.choice_trees.specs.ChoiceTrees.{plain_item, item_at};
ghost use Rattle.core_meaning.specs.Entities.{Scope};
ghost use Rattle.operand_types.specs.OperandTypes.{renumbered};
ghost use Rattle.statement_readings.specs.Walks as walks;
ghost use Rattle.type_tables.specs.Forms.{declared_type_form};
ghost use Rattle.type_tables.specs.Seen.{seen_tables};
ghost use Rattle.type_tables.specs.Numbers.{FollowsBy};
ghost use Rattle.cond_statements.specs.Ready.{IsExpression};
ghost use Rattle.cond_statements.specs.Uses.{use_of};

use crate::results::where_operand_refused;
use crate::uses::{Use, may_turn, use_in};
use c_tree::Kind;
use choice_trees::Item;
use cond_formula::{Formula, NoMemory, Oracle};
use cond_typing::read_expression;
use conditional::CondValue;
use expression_types::expressions_have_types;
use known_tables::Visible;
use operand_types::types_are_kept;
use reduced_conditions::{both, either, without};
use refuted_parts::without_refuted;
use std::alloc::Global;
use type_tables::{DeclaredType, Tables};

/// Where an expression is refused that is used so. What is never true is left out, so that no question about many of them is large.
fn where_expression_refused<O: Oracle>(
    alloc: Global,
    oracle: &mut O,
    tables: &Tables,
    returns: &CondValue<DeclaredType>,
    usage: Use,
    item: &Item,
) -> Result<Formula, NoMemory>
    ensures kept { O.admits oracle.new ≡ O.admits oracle.old }
    ensures refused { IfOk result (λ f. (c : List Bool) → IsTrue (value (has c) (O.admits oracle.old)) → (by : ℕ → ℕ) (ty : PlainType) (scope : Scope)
        → Stands (has c) (renumbered by ty) (alternatives declared_type_form returns.now) → FollowsBy by (seen_tables (has c) tables.now) scope
        → IsExpression (item_at (has c) (plain_item item.now))
        → value (has c) (condition_of f) ≡ walks.expression_refused ty scope (use_of usage) (item_at (has c) (plain_item item.now))) }
{
    types_are_kept();
    expressions_have_types();
    let visible = Visible { tables };
    let read = read_expression(alloc, &visible, oracle, item)?;
    let refused = where_operand_refused(alloc, returns, usage, read.outcomes)?;
    without_refuted(alloc, oracle, &refused)
}

/// Where an expression in the head of a `for` is refused: before its last `;` it is a condition, behind it it isn't (6.8.5.3).
fn where_head_refused<O: Oracle>(
    alloc: Global,
    oracle: &mut O,
    tables: &Tables,
    returns: &CondValue<DeclaredType>,
    turned: &Formula,
    item: &Item,
) -> Result<Formula, NoMemory>
    ensures kept { O.admits oracle.new ≡ O.admits oracle.old }
    ensures refused { IfOk result (λ f. (c : List Bool) → IsTrue (value (has c) (O.admits oracle.old)) → (by : ℕ → ℕ) (ty : PlainType) (scope : Scope)
        → Stands (has c) (renumbered by ty) (alternatives declared_type_form returns.now) → FollowsBy by (seen_tables (has c) tables.now) scope
        → IsExpression (item_at (has c) (plain_item item.now))
        → value (has c) (condition_of f) ≡ walks.expression_refused ty scope (walks.use_in k.For (value (has c) (condition_of turned.now))) (item_at (has c) (plain_item item.now))) }
{
    let tested = where_expression_refused(alloc, oracle, tables, returns, Use::Condition, item)?;
    let discarded = where_expression_refused(alloc, oracle, tables, returns, Use::Discarded, item)?;
    let before = without(alloc, tested, turned)?;
    let behind = both(alloc, discarded, turned.try_clone(alloc)?)?;
    either(alloc, before, behind)
}

/// Where an expression among the parts of a node is refused.
fn where_part_refused<O: Oracle>(
    alloc: Global,
    oracle: &mut O,
    tables: &Tables,
    returns: &CondValue<DeclaredType>,
    kind: Kind,
    turned: &Formula,
    item: &Item,
) -> Result<Formula, NoMemory>
    ensures kept { O.admits oracle.new ≡ O.admits oracle.old }
    ensures refused { IfOk result (λ f. (c : List Bool) → IsTrue (value (has c) (O.admits oracle.old)) → (by : ℕ → ℕ) (ty : PlainType) (scope : Scope)
        → Stands (has c) (renumbered by ty) (alternatives declared_type_form returns.now) → FollowsBy by (seen_tables (has c) tables.now) scope
        → IsExpression (item_at (has c) (plain_item item.now))
        → value (has c) (condition_of f) ≡ walks.expression_refused ty scope (walks.use_in kind (value (has c) (condition_of turned.now))) (item_at (has c) (plain_item item.now))) }
{
    if may_turn(kind) {
        where_head_refused(alloc, oracle, tables, returns, turned, item)
    } else {
        where_expression_refused(alloc, oracle, tables, returns, use_in(kind), item)
    }
}

/// Where an expression among the parts of a node is refused and the condition is true.
pub(crate) fn read_expression_part<O: Oracle>(
    alloc: Global,
    oracle: &mut O,
    tables: &Tables,
    returns: &CondValue<DeclaredType>,
    kind: Kind,
    when: &Formula,
    turned: &Formula,
    item: &Item,
) -> Result<Formula, NoMemory>
    ensures kept { O.admits oracle.new ≡ O.admits oracle.old }
    ensures elsewhere { IfOk result (λ f. (c : List Bool) → value (has c) (condition_of when.now) ≡ false → value (has c) (condition_of f) ≡ false) }
    ensures refused { IfOk result (λ f. (c : List Bool) → IsTrue (value (has c) (O.admits oracle.old)) → value (has c) (condition_of when.now) ≡ true → (by : ℕ → ℕ) (ty : PlainType) (scope : Scope)
        → Stands (has c) (renumbered by ty) (alternatives declared_type_form returns.now) → FollowsBy by (seen_tables (has c) tables.now) scope
        → IsExpression (item_at (has c) (plain_item item.now))
        → value (has c) (condition_of f) ≡ walks.expression_refused ty scope (walks.use_in kind (value (has c) (condition_of turned.now))) (item_at (has c) (plain_item item.now))) }
{
    let refused = where_part_refused(alloc, oracle, tables, returns, kind, turned, item)?;
    both(alloc, when.try_clone(alloc)?, refused)
}
