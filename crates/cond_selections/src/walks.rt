//! The selections of an expression, in the order of the text.
ghost use Rattle.std.specs.Prelude.{◌≡◌, ℕ, Bool, false, Option, None, List, ◌++◌, ◌||◌, ◌&&◌, IsTrue, IfOk, OnOk};
ghost use Rattle.cond_formula.specs.Features.{has};
ghost use Rattle.cond_formula.specs.Conditions.{condition_of, value};
ghost use Rattle.c_tree.specs.Trees.{node};
ghost use Rattle.c_tree.specs.declared.kinds.Kind as kinds;
ghost use Rattle.choice_trees.specs.ChoiceTrees.{plain_item, plain_branches, plain_choices, item_at, branch_at, parts_at};
ghost use Rattle.choice_trees.specs.Leaves.{item_leaves, branch_leaves, parts_leaves};
ghost use Rattle.conditional.specs.Entries.{seen, under, listed};
ghost use Rattle.selections.specs.Selections as spec;
ghost use Rattle.selections.specs.Selections.{selected_in, selected_in_parts};
ghost use Rattle.cond_selections.specs.Selected.{plain_selection, selections_in};
ghost use Rattle.cond_selections.specs.Progress.{ShowsStructure, Logs, turns_if_any, selected_if_any};

use crate::entries::Selection;
use crate::names::push_token;
use crate::structures::{Structures, no_structure, structure_of_node};
use c_tree::{Kind, Terminal, terminal};
use choice_trees::{Choice, Item};
use cond_formula::{Formula, NoMemory, Oracle};
use cond_nodes::Knowledge;
use conditional::CondList;
use conditional_steps::both_of;
use reduced_conditions::{either, without};
use std::alloc::Global;

/// Whether an item is a `.` or `->`.
#[tactic(auto, using(choice_trees::specs::ItemLaws::item_kinds))]
fn turns(item: &Item) -> bool
    ensures { (on : ℕ → Bool) → result ≡ spec.turns (item_at on (plain_item item.now)) }
{
    match item {
        Item::Leaf(_, token) => Terminal::Select.is(terminal(token)),
        Item::Node(..) => false,
    }
}

/// Where a `.` or `->` has been read, with one item more that is there where the second condition is true.
fn turned_by(
    alloc: Global,
    turned: Formula,
    here: Formula,
    item: &Item,
) -> Result<Formula, NoMemory>
    ensures { IfOk result (λ z. (on : ℕ → Bool) → value on (condition_of z)
        ≡ (value on (condition_of turned) || (value on (condition_of here) && spec.turns (item_at on (plain_item item.now))))) }
{
    if !turns(item) {
        return Ok(turned);
    }
    let both = either(alloc, turned, here)?;
    Ok(both)
}

/// The selections of a part of a node that selects in this struct. What stands behind a `.` or `->` names a member of it.
#[cycle(walk)]
#[tactic(auto, using(choice_trees::specs::ItemLaws::item_kinds))]
fn push_part<K: Knowledge, O: Oracle>(
    alloc: Global,
    known: &K,
    oracle: &mut O,
    when: &Formula,
    turned: &Formula,
    structures: &Structures,
    item: &Item,
    log: &mut CondList<Selection>,
) -> Result<(), NoMemory>
    ensures kept { O.admits oracle.new ≡ O.admits oracle.old }
    ensures logs { OnOk result ((c : List Bool) (owner : Option ℕ) → IsTrue (value (has c) (K.admits known.now)) → IsTrue (value (has c) (O.admits oracle.old))
        → ShowsStructure (has c) owner structures.now → Logs (value (has c) (condition_of when.now)) (item_leaves (has c) (plain_item item.now))
        (selected_in (K.known known.now c) owner (value (has c) (condition_of turned.now)) (item_at (has c) (plain_item item.now)))
        (seen (has c) (listed plain_selection log.old)) (seen (has c) (listed plain_selection log.new))) }
{
    match item {
        Item::Leaf(_, token) => {
            push_token(alloc, when, turned, structures, token, log)?;
        }
        Item::Node(kind, parts) => {
            push_node(alloc, known, oracle, when, *kind, parts, log)?;
        }
    }
    Ok(())
}

/// Those of the alternatives for a part, and where a `.` or `->` has been read behind it.
#[cycle(walk)]
fn push_choice<K: Knowledge, O: Oracle>(
    alloc: Global,
    known: &K,
    oracle: &mut O,
    when: &Formula,
    turned: &Formula,
    structures: &Structures,
    choice: &Choice<Item>,
    log: &mut CondList<Selection>,
) -> Result<Formula, NoMemory>
    ensures kept { O.admits oracle.new ≡ O.admits oracle.old }
    ensures turned { IfOk result (λ z. (on : ℕ → Bool) → value on (condition_of z)
        ≡ (value on (condition_of turned.now) || turns_if_any (branch_at on (plain_branches choice.now.branches.items)))) }
    ensures logs { OnOk result ((c : List Bool) (owner : Option ℕ) (needed : Bool) → IsTrue (value (has c) (K.admits known.now)) → IsTrue (value (has c) (O.admits oracle.old))
        → ShowsStructure (has c) owner structures.now → Logs (value (has c) (condition_of when.now)) (branch_leaves (has c) needed (plain_branches choice.now.branches.items))
        (selected_if_any (K.known known.now c) owner (value (has c) (condition_of turned.now)) (branch_at (has c) (plain_branches choice.now.branches.items)))
        (seen (has c) (listed plain_selection log.old)) (seen (has c) (listed plain_selection log.new))) }
{
    let mut left = Formula::True;
    let mut behind = turned.try_clone(alloc)?;
    for (alternative, item) in &choice.branches {
        let here = both_of(alloc, &left, alternative)?;
        let path = both_of(alloc, when, &here)?;
        push_part(alloc, known, oracle, &path, turned, structures, item, log)?;
        behind = turned_by(alloc, behind, here, item)?;
        left = without(alloc, left, alternative)?;
    }
    Ok(behind)
}

/// Those of the parts of a node that selects in this struct.
#[cycle(walk)]
fn push_parts<K: Knowledge, O: Oracle>(
    alloc: Global,
    known: &K,
    oracle: &mut O,
    when: &Formula,
    structures: &Structures,
    parts: &[Choice<Item>],
    log: &mut CondList<Selection>,
) -> Result<(), NoMemory>
    ensures kept { O.admits oracle.new ≡ O.admits oracle.old }
    ensures logs { OnOk result ((c : List Bool) (owner : Option ℕ) (kind : kinds.Kind) → IsTrue (value (has c) (K.admits known.now)) → IsTrue (value (has c) (O.admits oracle.old))
        → ShowsStructure (has c) owner structures.now → Logs (value (has c) (condition_of when.now)) (parts_leaves (has c) kind 0 (plain_choices parts.now))
        (selected_in_parts (K.known known.now c) owner false (parts_at (has c) kind 0 (plain_choices parts.now)))
        (seen (has c) (listed plain_selection log.old)) (seen (has c) (listed plain_selection log.new))) }
{
    let mut turned = Formula::False;
    for part in parts {
        turned = push_choice(alloc, known, oracle, when, &turned, structures, part, log)?;
    }
    Ok(())
}

/// Those of a node.
#[cycle(walk)]
fn push_node<K: Knowledge, O: Oracle>(
    alloc: Global,
    known: &K,
    oracle: &mut O,
    when: &Formula,
    kind: Kind,
    parts: &[Choice<Item>],
    log: &mut CondList<Selection>,
) -> Result<(), NoMemory>
    ensures kept { O.admits oracle.new ≡ O.admits oracle.old }
    ensures logs { OnOk result ((c : List Bool) → IsTrue (value (has c) (K.admits known.now)) → IsTrue (value (has c) (O.admits oracle.old))
        → Logs (value (has c) (condition_of when.now)) (parts_leaves (has c) kind 0 (plain_choices parts.now))
        (selected_in (K.known known.now c) None false (node kind (parts_at (has c) kind 0 (plain_choices parts.now))))
        (seen (has c) (listed plain_selection log.old)) (seen (has c) (listed plain_selection log.new))) }
{
    let structures = structure_of_node(alloc, known, oracle, kind, parts)?;
    push_parts(alloc, known, oracle, when, &structures, parts, log)?;
    Ok(())
}

/// Notes the selections of an expression where the condition is true, in the order of the text.
pub fn push_selections<K: Knowledge, O: Oracle>(
    alloc: Global,
    known: &K,
    oracle: &mut O,
    when: &Formula,
    item: &Item,
    log: &mut CondList<Selection>,
) -> Result<(), NoMemory>
    ensures kept { O.admits oracle.new ≡ O.admits oracle.old }
    ensures selects { OnOk result ((c : List Bool) → IsTrue (value (has c) (K.admits known.now)) → IsTrue (value (has c) (O.admits oracle.old))
        → seen (has c) (listed plain_selection log.new)
        ≡ seen (has c) (listed plain_selection log.old) ++ under (value (has c) (condition_of when.now)) (selections_in (K.known known.now c) (item_at (has c) (plain_item item.now)))) }
{
    let structures = no_structure(alloc)?;
    push_part(
        alloc,
        known,
        oracle,
        when,
        &Formula::False,
        &structures,
        item,
        log,
    )?;
    Ok(())
}
