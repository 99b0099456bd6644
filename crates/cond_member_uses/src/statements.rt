//! The uses of members in statements, part by part. Each alternative of a part is read where it is there.
ghost use Rattle.std.specs.Prelude.{◌≡◌, Bool, List, IsTrue, OnOk};
ghost use Rattle.cond_formula.specs.Features.{has};
ghost use Rattle.cond_formula.specs.Conditions.{condition_of, value};
ghost use Rattle.c_tree.specs.Trees.{node, none, more};
ghost use Rattle.choice_trees.specs.ChoiceTrees.{plain_item, plain_branches, plain_choices, with_part, item_at, branch_at, parts_at};
ghost use Rattle.type_tables.specs.Blocks.{OnlyLocals};
ghost use Rattle.cond_member_uses.specs.Noted.{noted_at, Notes, NotesExpression, NotesBlock, Where};

use crate::locals::note_locals;
use c_tree::Kind;
use choice_trees::{Choice, Item};
use cond_formula::{Formula, NoMemory, Oracle};
use cond_selections::{Selection, push_selections};
use cond_statements::{Role, role_of};
use conditional::CondList;
use conditional_steps::both_of;
use known_tables::Visible;
use member_uses::expressions_use_selections;
use reduced_conditions::without;
use std::alloc::Global;
use type_tables::Tables;

/// The uses in the parts of a node of this kind, where the condition is true.
#[cycle(noting)]
pub(crate) fn note_parts<O: Oracle>(
    alloc: Global,
    oracle: &mut O,
    tables: &mut Tables,
    kind: Kind,
    when: &Formula,
    parts: &[Choice<Item>],
    log: &mut CondList<Selection>,
) -> Result<(), NoMemory>
    ensures kept { O.admits oracle.new ≡ O.admits oracle.old }
    ensures outside { OnOk result (OnlyLocals tables.old tables.new) }
    ensures notes { OnOk result ((c : List Bool) → IsTrue (value (has c) (O.admits oracle.old))
        → Where (value (has c) (condition_of when.now)) (Notes kind (parts_at (has c) kind 0 (plain_choices parts.now))) (noted_at (has c) tables.old log.old) (noted_at (has c) tables.new log.new)) }
{
    for part in parts {
        note_choice(alloc, oracle, tables, kind, when, part, log)?;
    }
    Ok(())
}

/// Those in the alternatives for a part, of which the first that holds is there.
#[cycle(noting)]
fn note_choice<O: Oracle>(
    alloc: Global,
    oracle: &mut O,
    tables: &mut Tables,
    kind: Kind,
    when: &Formula,
    choice: &Choice<Item>,
    log: &mut CondList<Selection>,
) -> Result<(), NoMemory>
    ensures kept { O.admits oracle.new ≡ O.admits oracle.old }
    ensures outside { OnOk result (OnlyLocals tables.old tables.new) }
    ensures notes { OnOk result ((c : List Bool) (needed : Bool) → IsTrue (value (has c) (O.admits oracle.old))
        → Where (value (has c) (condition_of when.now)) (Notes kind (with_part needed (branch_at (has c) (plain_branches choice.now.branches.items)) none)) (noted_at (has c) tables.old log.old) (noted_at (has c) tables.new log.new)) }
{
    let mut rest = when.try_clone(alloc)?;
    for (condition, item) in &choice.branches {
        let here = both_of(alloc, &rest, condition)?;
        note_item(alloc, oracle, tables, kind, &here, item, log)?;
        rest = without(alloc, rest, condition)?;
    }
    Ok(())
}

/// Those in a part. A token uses no member.
#[cycle(noting)]
#[tactic(auto, using(choice_trees::specs::ItemLaws::item_kinds))]
fn note_item<O: Oracle>(
    alloc: Global,
    oracle: &mut O,
    tables: &mut Tables,
    around: Kind,
    when: &Formula,
    item: &Item,
    log: &mut CondList<Selection>,
) -> Result<(), NoMemory>
    ensures kept { O.admits oracle.new ≡ O.admits oracle.old }
    ensures outside { OnOk result (OnlyLocals tables.old tables.new) }
    ensures notes { OnOk result ((c : List Bool) → IsTrue (value (has c) (O.admits oracle.old))
        → Where (value (has c) (condition_of when.now)) (Notes around (more (item_at (has c) (plain_item item.now)) none)) (noted_at (has c) tables.old log.old) (noted_at (has c) tables.new log.new)) }
{
    match item {
        Item::Leaf(..) => Ok(()),
        Item::Node(kind, parts) => {
            note_node(alloc, oracle, tables, around, when, *kind, parts, item, log)
        }
    }
}

/// Those in a node among the parts of another.
#[cycle(noting)]
fn note_node<O: Oracle>(
    alloc: Global,
    oracle: &mut O,
    tables: &mut Tables,
    around: Kind,
    when: &Formula,
    kind: Kind,
    parts: &[Choice<Item>],
    item: &Item,
    log: &mut CondList<Selection>,
) -> Result<(), NoMemory>
    ensures kept { O.admits oracle.new ≡ O.admits oracle.old }
    ensures outside { OnOk result (OnlyLocals tables.old tables.new) }
    ensures notes { OnOk result ((c : List Bool) → IsTrue (value (has c) (O.admits oracle.old))
        → item_at (has c) (plain_item item.now) ≡ node kind (parts_at (has c) kind 0 (plain_choices parts.now))
        → Where (value (has c) (condition_of when.now)) (Notes around (more (node kind (parts_at (has c) kind 0 (plain_choices parts.now))) none)) (noted_at (has c) tables.old log.old) (noted_at (has c) tables.new log.new)) }
{
    match role_of(kind) {
        Role::LeftOut => Ok(()),
        Role::Jump => Ok(()),
        Role::Declaration => note_locals(alloc, oracle, tables, when, parts, log),
        Role::Scoped => note_scoped(alloc, oracle, tables, kind, when, parts, log),
        Role::Parts => note_parts(alloc, oracle, tables, kind, when, parts, log),
        Role::Expression => note_expression(alloc, oracle, tables, when, item, log),
    }
}

/// Those in an expression.
fn note_expression<O: Oracle>(
    alloc: Global,
    oracle: &mut O,
    tables: &Tables,
    when: &Formula,
    item: &Item,
    log: &mut CondList<Selection>,
) -> Result<(), NoMemory>
    ensures kept { O.admits oracle.new ≡ O.admits oracle.old }
    ensures notes { OnOk result ((c : List Bool) → IsTrue (value (has c) (O.admits oracle.old))
        → Where (value (has c) (condition_of when.now)) (NotesExpression (item_at (has c) (plain_item item.now))) (noted_at (has c) tables.now log.old) (noted_at (has c) tables.now log.new)) }
{
    expressions_use_selections();
    let visible = Visible { tables };
    push_selections(alloc, &visible, oracle, when, item, log)
}

/// Those in a node that has a block of its own (6.8.2, 6.8.5).
#[cycle(noting)]
fn note_scoped<O: Oracle>(
    alloc: Global,
    oracle: &mut O,
    tables: &mut Tables,
    kind: Kind,
    when: &Formula,
    parts: &[Choice<Item>],
    log: &mut CondList<Selection>,
) -> Result<(), NoMemory>
    ensures kept { O.admits oracle.new ≡ O.admits oracle.old }
    ensures outside { OnOk result (OnlyLocals tables.old tables.new) }
    ensures notes { OnOk result ((c : List Bool) → IsTrue (value (has c) (O.admits oracle.old))
        → Where (value (has c) (condition_of when.now)) (NotesBlock kind (parts_at (has c) kind 0 (plain_choices parts.now))) (noted_at (has c) tables.old log.old) (noted_at (has c) tables.new log.new)) }
{
    let outside = tables.enter()?;
    note_parts(alloc, oracle, tables, kind, when, parts, log)?;
    tables.leave(outside);
    Ok(())
}
