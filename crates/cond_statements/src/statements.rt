//! Statements, part by part. Each alternative of a part is read where it is there.
ghost use Rattle.std.specs.Prelude.{◌≡◌, ℕ, Bool, true, false, not, ◌&&◌, if◌then◌else◌, List, IsTrue, IfOk, OnOk};
ghost use Rattle.cond_formula.specs.Features.{has};
ghost use Rattle.cond_formula.specs.Conditions.{condition_of, value};
ghost use Rattle.c_text.specs.Token.{plain_token};
ghost use Rattle.c_types.specs.Types.{PlainType};
ghost use Rattle.c_tree.specs.Trees.{leaf, node, none, more};
ghost use Rattle.conditional.specs.Entries.{alternatives, Stands};
ghost use Rattle.choice_trees.specs.ChoiceTrees.{plain_item, plain_branches, plain_choices, with_part, item_at, branch_at, parts_at};
ghost use Rattle.type_tables.specs.Forms.{declared_type_form};
ghost use Rattle.type_tables.specs.Seen.{seen_tables};
ghost use Rattle.type_tables.specs.Blocks.{OnlyLocals};
ghost use Rattle.cond_statements.specs.Results.{absence_refused};
ghost use Rattle.cond_statements.specs.Readings.{turned_behind, Reads, ReadsBlock, Walks};

use crate::blocks::{close_block, open_block};
use crate::declarations::Declarations;
use crate::expressions::read_expression_part;
use crate::results::where_absence_refused;
use crate::roles::{Role, is_loop, role_of};
use crate::uses::{is_operand, turns};
use crate::walks::Walk;
use c_text::Token;
use c_tree::Kind;
use choice_trees::{Choice, Item};
use cond_formula::{Formula, NoMemory, Oracle};
use conditional::CondValue;
use conditional_steps::{both_of, never};
use reduced_conditions::{both, without};
use std::alloc::Global;
use type_tables::{DeclaredType, Tables};

/// Where parts stand: in a loop or not, and in a node of this kind.
#[derive(Clone, Copy, Debug)]
pub struct Around {
    pub in_loop: bool,
    pub kind: Kind,
}

impl Around {
    ghost use Rattle.std.specs.Prelude.{◌≡◌, ◌||◌};
    ghost use Rattle.statement_readings.specs.Walks.{is_loop};

    /// Where the parts of a node stand that stands here.
    fn inside(self, kind: Kind) -> Around
        ensures { result ≡ record { in_loop = is_loop kind || self.in_loop; kind = kind } }
    {
        Around {
            in_loop: is_loop(kind) || self.in_loop,
            kind,
        }
    }
}

/// The parts of a node. The answer is where one of them is refused and the condition is true.
#[cycle(reading)]
pub(crate) fn read_parts<D: Declarations, O: Oracle>(
    alloc: Global,
    oracle: &mut O,
    tables: &mut Tables,
    declarations: &D,
    returns: &CondValue<DeclaredType>,
    around: Around,
    when: &Formula,
    parts: &[Choice<Item>],
) -> Result<Formula, NoMemory>
    ensures kept { O.admits oracle.new ≡ O.admits oracle.old }
    ensures outside { OnOk result (OnlyLocals tables.old tables.new) }
    ensures reads { IfOk result (λ f. (c : List Bool) (ty : PlainType) → IsTrue (value (has c) (O.admits oracle.old))
        → Reads (has c) ty (alternatives declared_type_form returns.now) around.in_loop around.kind false (parts_at (has c) around.kind 0 (plain_choices parts.now))
        (value (has c) (condition_of when.now)) (seen_tables (has c) tables.old) (seen_tables (has c) tables.new) (value (has c) (condition_of f))) }
{
    let mut walk = Walk::new();
    for part in parts {
        read_choice(
            alloc,
            oracle,
            tables,
            declarations,
            returns,
            around,
            when,
            part,
            &mut walk,
        )?;
    }
    Ok(walk.refused)
}

/// The alternatives for a part, of which the first that holds is there. A `;` that stands for a statement is never refused.
#[cycle(reading)]
fn read_choice<D: Declarations, O: Oracle>(
    alloc: Global,
    oracle: &mut O,
    tables: &mut Tables,
    declarations: &D,
    returns: &CondValue<DeclaredType>,
    around: Around,
    when: &Formula,
    choice: &Choice<Item>,
    walk: &mut Walk,
) -> Result<(), NoMemory>
    ensures kept { O.admits oracle.new ≡ O.admits oracle.old }
    ensures outside { OnOk result (OnlyLocals tables.old tables.new) }
    ensures walks { OnOk result ((c : List Bool) (ty : PlainType) (needed : Bool) → IsTrue (value (has c) (O.admits oracle.old))
        → Walks (has c) ty (alternatives declared_type_form returns.now) around.in_loop around.kind (with_part needed (branch_at (has c) (plain_branches choice.now.branches.items)) none)
        (value (has c) (condition_of when.now)) (seen_tables (has c) tables.old) (seen_tables (has c) tables.new) (value (has c) (condition_of walk.old.refused)) (value (has c) (condition_of walk.new.refused))
        (value (has c) (condition_of walk.old.turned)) (value (has c) (condition_of walk.new.turned))) }
{
    let mut rest = when.try_clone(alloc)?;
    for (condition, item) in &choice.branches {
        let here = both_of(alloc, &rest, condition)?;
        read_alternative(
            alloc,
            oracle,
            tables,
            declarations,
            returns,
            around,
            &here,
            item,
            walk,
        )?;
        rest = without(alloc, rest, condition)?;
    }
    Ok(())
}

/// A part where the condition is true.
#[cycle(reading)]
fn read_alternative<D: Declarations, O: Oracle>(
    alloc: Global,
    oracle: &mut O,
    tables: &mut Tables,
    declarations: &D,
    returns: &CondValue<DeclaredType>,
    around: Around,
    when: &Formula,
    item: &Item,
    walk: &mut Walk,
) -> Result<(), NoMemory>
    ensures kept { O.admits oracle.new ≡ O.admits oracle.old }
    ensures outside { OnOk result (OnlyLocals tables.old tables.new) }
    ensures walks { OnOk result ((c : List Bool) (ty : PlainType) → IsTrue (value (has c) (O.admits oracle.old))
        → Walks (has c) ty (alternatives declared_type_form returns.now) around.in_loop around.kind (more (item_at (has c) (plain_item item.now)) none)
        (value (has c) (condition_of when.now)) (seen_tables (has c) tables.old) (seen_tables (has c) tables.new) (value (has c) (condition_of walk.old.refused)) (value (has c) (condition_of walk.new.refused))
        (value (has c) (condition_of walk.old.turned)) (value (has c) (condition_of walk.new.turned))) }
{
    let found = read_item(
        alloc,
        oracle,
        tables,
        declarations,
        returns,
        around,
        when,
        &walk.turned,
        item,
    )?;
    walk.refuse(alloc, found)?;
    turn_at(alloc, around.kind, when, item, walk)
}

/// A part may turn what an expression behind it is.
#[tactic(auto, using(choice_trees::specs::ItemLaws::item_kinds))]
fn turn_at(
    alloc: Global,
    kind: Kind,
    when: &Formula,
    item: &Item,
    walk: &mut Walk,
) -> Result<(), NoMemory>
    ensures turned { OnOk result ((on : ℕ → Bool) → value on (condition_of walk.new.turned)
        ≡ (if value on (condition_of when.now) then turned_behind kind (value on (condition_of walk.old.turned)) (more (item_at on (plain_item item.now)) none) else value on (condition_of walk.old.turned))) }
    ensures refused { OnOk result (walk.new.refused ≡ walk.old.refused) }
{
    match item {
        Item::Leaf(_, token) => turn_at_token(alloc, kind, when, token, walk),
        Item::Node(_, _) => Ok(()),
    }
}

fn turn_at_token(
    alloc: Global,
    kind: Kind,
    when: &Formula,
    token: &Token,
    walk: &mut Walk,
) -> Result<(), NoMemory>
    ensures turned { OnOk result ((on : ℕ → Bool) → value on (condition_of walk.new.turned)
        ≡ (if value on (condition_of when.now) then turned_behind kind (value on (condition_of walk.old.turned)) (more (leaf (plain_token token.now)) none) else value on (condition_of walk.old.turned))) }
    ensures refused { OnOk result (walk.new.refused ≡ walk.old.refused) }
{
    if turns(kind, token) {
        walk.turn(alloc, when)?;
    }
    Ok(())
}

/// A part where the condition is true. The answer is where it is refused.
#[cycle(reading)]
#[tactic(auto, using(choice_trees::specs::ItemLaws::item_kinds))]
fn read_item<D: Declarations, O: Oracle>(
    alloc: Global,
    oracle: &mut O,
    tables: &mut Tables,
    declarations: &D,
    returns: &CondValue<DeclaredType>,
    around: Around,
    when: &Formula,
    turned: &Formula,
    item: &Item,
) -> Result<Formula, NoMemory>
    ensures kept { O.admits oracle.new ≡ O.admits oracle.old }
    ensures outside { OnOk result (OnlyLocals tables.old tables.new) }
    ensures reads { IfOk result (λ f. (c : List Bool) (ty : PlainType) → IsTrue (value (has c) (O.admits oracle.old))
        → Reads (has c) ty (alternatives declared_type_form returns.now) around.in_loop around.kind (value (has c) (condition_of turned.now)) (more (item_at (has c) (plain_item item.now)) none)
        (value (has c) (condition_of when.now)) (seen_tables (has c) tables.old) (seen_tables (has c) tables.new) (value (has c) (condition_of f))) }
{
    match item {
        Item::Leaf(_, token) => read_token(
            alloc, oracle, tables, returns, around, when, turned, token, item,
        ),
        Item::Node(kind, parts) => read_node(
            alloc,
            oracle,
            tables,
            declarations,
            returns,
            around,
            when,
            turned,
            *kind,
            parts,
            item,
        ),
    }
}

/// A token among the parts.
fn read_token<O: Oracle>(
    alloc: Global,
    oracle: &mut O,
    tables: &Tables,
    returns: &CondValue<DeclaredType>,
    around: Around,
    when: &Formula,
    turned: &Formula,
    token: &Token,
    item: &Item,
) -> Result<Formula, NoMemory>
    ensures kept { O.admits oracle.new ≡ O.admits oracle.old }
    ensures reads { IfOk result (λ f. (c : List Bool) (ty : PlainType) → IsTrue (value (has c) (O.admits oracle.old)) → item_at (has c) (plain_item item.now) ≡ leaf (plain_token token.now)
        → Reads (has c) ty (alternatives declared_type_form returns.now) around.in_loop around.kind (value (has c) (condition_of turned.now)) (more (leaf (plain_token token.now)) none)
        (value (has c) (condition_of when.now)) (seen_tables (has c) tables.now) (seen_tables (has c) tables.now) (value (has c) (condition_of f))) }
{
    if is_operand(token) {
        read_expression_part(
            alloc,
            oracle,
            tables,
            returns,
            around.kind,
            when,
            turned,
            item,
        )
    } else {
        never()
    }
}

/// A node among the parts.
#[cycle(reading)]
fn read_node<D: Declarations, O: Oracle>(
    alloc: Global,
    oracle: &mut O,
    tables: &mut Tables,
    declarations: &D,
    returns: &CondValue<DeclaredType>,
    around: Around,
    when: &Formula,
    turned: &Formula,
    kind: Kind,
    parts: &[Choice<Item>],
    item: &Item,
) -> Result<Formula, NoMemory>
    ensures kept { O.admits oracle.new ≡ O.admits oracle.old }
    ensures outside { OnOk result (OnlyLocals tables.old tables.new) }
    ensures reads { IfOk result (λ f. (c : List Bool) (ty : PlainType) → IsTrue (value (has c) (O.admits oracle.old))
        → item_at (has c) (plain_item item.now) ≡ node kind (parts_at (has c) kind 0 (plain_choices parts.now))
        → Reads (has c) ty (alternatives declared_type_form returns.now) around.in_loop around.kind (value (has c) (condition_of turned.now)) (more (node kind (parts_at (has c) kind 0 (plain_choices parts.now))) none)
        (value (has c) (condition_of when.now)) (seen_tables (has c) tables.old) (seen_tables (has c) tables.new) (value (has c) (condition_of f))) }
{
    match role_of(kind) {
        Role::LeftOut => read_absence(alloc, around.kind, returns, when),
        Role::Declaration => declarations.declare(alloc, oracle, tables, when, parts),
        Role::Scoped => read_scoped(
            alloc,
            oracle,
            tables,
            declarations,
            returns,
            around.inside(kind),
            when,
            parts,
        ),
        Role::Parts => read_parts(
            alloc,
            oracle,
            tables,
            declarations,
            returns,
            around.inside(kind),
            when,
            parts,
        ),
        Role::Jump => read_jump(alloc, around.in_loop, when),
        Role::Expression => read_expression_part(
            alloc,
            oracle,
            tables,
            returns,
            around.kind,
            when,
            turned,
            item,
        ),
    }
}

/// A node that has a block of its own (6.8.2, 6.8.5).
#[cycle(reading)]
fn read_scoped<D: Declarations, O: Oracle>(
    alloc: Global,
    oracle: &mut O,
    tables: &mut Tables,
    declarations: &D,
    returns: &CondValue<DeclaredType>,
    around: Around,
    when: &Formula,
    parts: &[Choice<Item>],
) -> Result<Formula, NoMemory>
    ensures kept { O.admits oracle.new ≡ O.admits oracle.old }
    ensures outside { OnOk result (OnlyLocals tables.old tables.new) }
    ensures same { OnOk result ((on : ℕ → Bool) → seen_tables on tables.new ≡ seen_tables on tables.old) }
    ensures reads { IfOk result (λ f. (c : List Bool) (ty : PlainType) → IsTrue (value (has c) (O.admits oracle.old))
        → ReadsBlock (has c) ty (alternatives declared_type_form returns.now) around.in_loop around.kind (parts_at (has c) around.kind 0 (plain_choices parts.now))
        (value (has c) (condition_of when.now)) (seen_tables (has c) tables.old) (value (has c) (condition_of f))) }
{
    let locals = tables.locals.len();
    let depth = tables.depth;
    open_block(tables)?;
    let refused = read_parts(
        alloc,
        oracle,
        tables,
        declarations,
        returns,
        around,
        when,
        parts,
    )?;
    close_block(tables, locals, depth);
    Ok(refused)
}

/// What is left out among the parts.
fn read_absence(
    alloc: Global,
    kind: Kind,
    returns: &CondValue<DeclaredType>,
    when: &Formula,
) -> Result<Formula, NoMemory>
    ensures elsewhere { IfOk result (λ f. (on : ℕ → Bool) → value on (condition_of when.now) ≡ false → value on (condition_of f) ≡ false) }
    ensures refused { IfOk result (λ f. (on : ℕ → Bool) (ty : PlainType) → value on (condition_of when.now) ≡ true → Stands on ty (alternatives declared_type_form returns.now)
        → value on (condition_of f) ≡ absence_refused kind ty) }
{
    let refused = where_absence_refused(alloc, kind, returns)?;
    both(alloc, when.try_clone(alloc)?, refused)
}

/// `break` or `continue` (6.8.6.2, 6.8.6.3).
fn read_jump(alloc: Global, in_loop: bool, when: &Formula) -> Result<Formula, NoMemory>
    ensures { IfOk result (λ f. (on : ℕ → Bool) → value on (condition_of f) ≡ (value on (condition_of when.now) && not in_loop)) }
{
    if in_loop {
        return never();
    }
    when.try_clone(alloc)
}
