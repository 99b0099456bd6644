//! The parameters of a list (6.7.6.3).
ghost use Rattle.std.specs.Prelude.{◌≡◌, ℕ, Bool, true, false, List, [], Some, IsTrue, IfOk, OnOk};
ghost use Rattle.cond_formula.specs.Features.{has};
ghost use Rattle.cond_formula.specs.Conditions.{condition_of, value};
ghost use Rattle.conditional.specs.Entries.{listed, seen};
ghost use Rattle.c_text.specs.Token.{PlainToken};
ghost use Rattle.c_tree.specs.Trees.{node};
ghost use Rattle.choice_trees.specs.ChoiceTrees.{plain_item, plain_choices, item_at, parts_at};
ghost use Rattle.core_meaning.specs.Declarations.{with_block, parameters_of};
ghost use Rattle.core_meaning.specs.Entities.{Scope};
ghost use Rattle.operand_types.specs.OperandTypes.{outcome_as};
ghost use Rattle.type_tables.specs.Forms.{declared_type_form};
ghost use Rattle.type_tables.specs.Seen.{seen_tables};
ghost use Rattle.type_tables.specs.Numbers.{FollowsInBlockBy};
ghost use Rattle.type_tables.specs.Blocks.{OnlyLocals};
ghost use Rattle.cond_parameters.specs.Parameters.{IsList, Declares};
ghost use Rattle.cond_parameters.specs.Walks.{state_of};

use crate::trees::parameter_trees;
use crate::walks::{DeclaredParameters, declare_trees, no_parameters};
use c_tree::Kind;
use choice_trees::{Choice, Item};
use cond_formula::{Formula, NoMemory, Oracle};
use std::alloc::Global;
use type_tables::Tables;

/// The parameters of a list with these parts.
fn declare_parts<O: Oracle>(
    alloc: Global,
    oracle: &mut O,
    tables: &mut Tables,
    defining: bool,
    when: &Formula,
    parts: &[Choice<Item>],
) -> Result<DeclaredParameters, NoMemory>
    ensures kept { O.admits oracle.new ≡ O.admits oracle.old }
    ensures outside { OnOk result (OnlyLocals tables.old tables.new) }
    ensures elsewhere { IfOk result (λ all. (c : List Bool) → IsTrue (value (has c) (O.admits oracle.old)) → value (has c) (condition_of when.now) ≡ false
        → state_of (has c) all tables.new ≡ record { types = []; refused = false; tables = seen_tables (has c) tables.old }) }
    ensures declared { IfOk result (λ all. (c : List Bool) (by : ℕ → ℕ) (scope : Scope) (behind : PlainToken) → IsTrue (value (has c) (O.admits oracle.old)) → value (has c) (condition_of when.now) ≡ true
        → FollowsInBlockBy by (seen_tables (has c) tables.old) (with_block scope)
        → IsList (node Kind.Parameters (parts_at (has c) Kind.Parameters 0 (plain_choices parts.now)))
        → Declares by scope (outcome_as (λ ps. ps) (parameters_of defining scope (Some (node Kind.Parameters (parts_at (has c) Kind.Parameters 0 (plain_choices parts.now)))) behind))
        (seen (has c) (listed declared_type_form all.types)) (value (has c) (condition_of all.refused)) (seen_tables (has c) tables.new)) }
{
    let trees = parameter_trees(alloc, oracle, when, parts)?;
    let all = declare_trees(alloc, oracle, tables, defining, &trees)?;
    Ok(all)
}

/// The parameters of a list, by the kind of what stands for it.
fn declare_node<O: Oracle>(
    alloc: Global,
    oracle: &mut O,
    tables: &mut Tables,
    defining: bool,
    when: &Formula,
    kind: Kind,
    parts: &[Choice<Item>],
) -> Result<DeclaredParameters, NoMemory>
    ensures kept { O.admits oracle.new ≡ O.admits oracle.old }
    ensures outside { OnOk result (OnlyLocals tables.old tables.new) }
    ensures elsewhere { IfOk result (λ all. (c : List Bool) → IsTrue (value (has c) (O.admits oracle.old)) → value (has c) (condition_of when.now) ≡ false
        → state_of (has c) all tables.new ≡ record { types = []; refused = false; tables = seen_tables (has c) tables.old }) }
    ensures declared { IfOk result (λ all. (c : List Bool) (by : ℕ → ℕ) (scope : Scope) (behind : PlainToken) → IsTrue (value (has c) (O.admits oracle.old)) → value (has c) (condition_of when.now) ≡ true
        → FollowsInBlockBy by (seen_tables (has c) tables.old) (with_block scope) → IsList (node kind (parts_at (has c) kind 0 (plain_choices parts.now)))
        → Declares by scope (outcome_as (λ ps. ps) (parameters_of defining scope (Some (node kind (parts_at (has c) kind 0 (plain_choices parts.now)))) behind))
        (seen (has c) (listed declared_type_form all.types)) (value (has c) (condition_of all.refused)) (seen_tables (has c) tables.new)) }
{
    match kind {
        Kind::Parameters => {
            let all = declare_parts(alloc, oracle, tables, defining, when, parts)?;
            Ok(all)
        }
        _ => Ok(no_parameters(alloc)),
    }
}

/// The parameters that a list declares where the condition is true, in the innermost block, which has just been entered. They are those of a
/// definition, or of a declaration that defines nothing. Each is read once, however many of the others are there.
#[tactic(auto, using(choice_trees::specs::ItemLaws::item_kinds))]
pub fn declare_parameters<O: Oracle>(
    alloc: Global,
    oracle: &mut O,
    tables: &mut Tables,
    defining: bool,
    when: &Formula,
    list: &Item,
) -> Result<DeclaredParameters, NoMemory>
    ensures kept { O.admits oracle.new ≡ O.admits oracle.old }
    ensures outside { OnOk result (OnlyLocals tables.old tables.new) }
    ensures elsewhere { IfOk result (λ all. (c : List Bool) → IsTrue (value (has c) (O.admits oracle.old)) → value (has c) (condition_of when.now) ≡ false
        → (seen_tables (has c) tables.new ≡ seen_tables (has c) tables.old) × (value (has c) (condition_of all.refused) ≡ false) × (seen (has c) (listed declared_type_form all.types) ≡ [])) }
    ensures declared { IfOk result (λ all. (c : List Bool) (by : ℕ → ℕ) (scope : Scope) (behind : PlainToken) → IsTrue (value (has c) (O.admits oracle.old)) → value (has c) (condition_of when.now) ≡ true
        → FollowsInBlockBy by (seen_tables (has c) tables.old) (with_block scope) → IsList (item_at (has c) (plain_item list.now))
        → Declares by scope (outcome_as (λ ps. ps) (parameters_of defining scope (Some (item_at (has c) (plain_item list.now))) behind))
        (seen (has c) (listed declared_type_form all.types)) (value (has c) (condition_of all.refused)) (seen_tables (has c) tables.new)) }
{
    match list {
        Item::Leaf(..) => Ok(no_parameters(alloc)),
        Item::Node(kind, parts) => {
            let all = declare_node(alloc, oracle, tables, defining, when, *kind, parts)?;
            Ok(all)
        }
    }
}
