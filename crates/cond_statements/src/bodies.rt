//! The bodies of functions.
ghost use Rattle.std.specs.Prelude.{◌≡◌, ℕ, Bool, true, false, List, IsTrue, IfOk, OnOk};
ghost use Rattle.cond_formula.specs.Features.{has};
ghost use Rattle.cond_formula.specs.Conditions.{condition_of, value};
ghost use Rattle.c_types.specs.Types.{PlainType};
ghost use Rattle.c_tree.specs.Grammar.{block};
ghost use Rattle.c_tree.specs.Trees.{node};
ghost use Rattle.tree_derivations.specs.Derivations.{Derivation};
ghost use Rattle.conditional.specs.Entries.{alternatives, Stands};
ghost use Rattle.choice_trees.specs.ChoiceTrees.{plain_item, plain_choices, item_at, parts_at};
ghost use Rattle.core_meaning.specs.Entities.{Scope};
ghost use Rattle.operand_types.specs.OperandTypes.{renumbered};
ghost use Rattle.statement_readings.specs.Walks.{walk_body};
ghost use Rattle.statement_readings.specs.Laws.{starting};
ghost use Rattle.type_tables.specs.Forms.{declared_type_form};
ghost use Rattle.type_tables.specs.Seen.{seen_tables};
ghost use Rattle.type_tables.specs.Follows.{FollowsInBlock};

use crate::blocks::close_block;
use crate::declarations::Declarations;
use crate::statements::{Around, read_parts};
use c_tree::Kind;
use choice_trees::{Choice, Item};
use cond_formula::{Formula, NoMemory, Oracle};
use conditional::CondValue;
use conditional_steps::never;
use std::alloc::Global;
use type_tables::{DeclaredType, Tables};

/// The block of a function whose result is of the type, in the scope of its parameters, where the condition is true. The answer is where it is
/// refused (6.9.1). No local of the block is left in the tables.
#[tactic(auto, using(choice_trees::specs::ItemLaws::item_kinds))]
pub fn read_body<D: Declarations, O: Oracle>(
    alloc: Global,
    oracle: &mut O,
    tables: &mut Tables,
    declarations: &D,
    returns: &CondValue<DeclaredType>,
    when: &Formula,
    body: &Item,
) -> Result<Formula, NoMemory>
    ensures kept { O.admits oracle.new ≡ O.admits oracle.old }
    ensures same { OnOk result (tables.new ≡ record tables.old { locals = tables.new.locals }) }
    ensures locals { OnOk result (tables.new.locals.items ≡ tables.old.locals.items) }
    ensures seen { OnOk result ((on : ℕ → Bool) → seen_tables on tables.new ≡ seen_tables on tables.old) }
    ensures elsewhere { IfOk result (λ f. (c : List Bool) → IsTrue (value (has c) (O.admits oracle.old)) → value (has c) (condition_of when.now) ≡ false → value (has c) (condition_of f) ≡ false) }
    ensures refused { IfOk result (λ f. (c : List Bool) → IsTrue (value (has c) (O.admits oracle.old)) → value (has c) (condition_of when.now) ≡ true
        → (ty : PlainType) (scope : Scope) (slots : List PlainType) (follows : FollowsInBlock (seen_tables (has c) tables.old) scope)
        → Stands (has c) (renumbered follows.follows.by ty) (alternatives declared_type_form returns.now)
        → Derivation block (item_at (has c) (plain_item body.now))
        → value (has c) (condition_of f) ≡ (walk_body ty (item_at (has c) (plain_item body.now)) (starting scope slots)).refused) }
{
    match body {
        Item::Leaf(_, _) => never(),
        Item::Node(kind, parts) => read_block(
            alloc,
            oracle,
            tables,
            declarations,
            returns,
            when,
            *kind,
            parts,
        ),
    }
}

/// The parts of the block.
fn read_block<D: Declarations, O: Oracle>(
    alloc: Global,
    oracle: &mut O,
    tables: &mut Tables,
    declarations: &D,
    returns: &CondValue<DeclaredType>,
    when: &Formula,
    kind: Kind,
    parts: &[Choice<Item>],
) -> Result<Formula, NoMemory>
    ensures kept { O.admits oracle.new ≡ O.admits oracle.old }
    ensures same { OnOk result (tables.new ≡ record tables.old { locals = tables.new.locals }) }
    ensures locals { OnOk result (tables.new.locals.items ≡ tables.old.locals.items) }
    ensures seen { OnOk result ((on : ℕ → Bool) → seen_tables on tables.new ≡ seen_tables on tables.old) }
    ensures elsewhere { IfOk result (λ f. (c : List Bool) → IsTrue (value (has c) (O.admits oracle.old)) → value (has c) (condition_of when.now) ≡ false → value (has c) (condition_of f) ≡ false) }
    ensures refused { IfOk result (λ f. (c : List Bool) → IsTrue (value (has c) (O.admits oracle.old)) → value (has c) (condition_of when.now) ≡ true
        → (ty : PlainType) (scope : Scope) (slots : List PlainType) (follows : FollowsInBlock (seen_tables (has c) tables.old) scope)
        → Stands (has c) (renumbered follows.follows.by ty) (alternatives declared_type_form returns.now)
        → Derivation block (node kind (parts_at (has c) kind 0 (plain_choices parts.now)))
        → value (has c) (condition_of f) ≡ (walk_body ty (node kind (parts_at (has c) kind 0 (plain_choices parts.now))) (starting scope slots)).refused) }
{
    let locals = tables.locals.len();
    let depth = tables.depth;
    let around = Around {
        in_loop: false,
        kind,
    };
    let refused = read_parts(
        alloc,
        oracle,
        tables,
        declarations,
        returns,
        around,
        when,
        parts,
    )?;
    close_block(tables, locals, depth);
    Ok(refused)
}
