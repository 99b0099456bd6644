//! The uses of members in the items of a unit, one after the other, each where it is there (6.9).
ghost use Rattle.std.specs.Prelude.{◌≡◌, ℕ, Bool, ◌&&◌, List, IsTrue, OnOk};
ghost use Rattle.cond_formula.specs.Features.{has};
ghost use Rattle.cond_formula.specs.Conditions.{condition_of, value};
ghost use Rattle.conditional.specs.Entries.{seen};
ghost use Rattle.c_tree.specs.declared.kinds.Kind.TheVariants as k;
ghost use Rattle.c_tree.specs.Trees.{trees};
ghost use Rattle.choice_trees.specs.ChoiceTrees.{plain_item, plain_choices, item_at, parts_at};
ghost use Rattle.declarator_lists.specs.Entries.{entries_at};
ghost use Rattle.cond_unit_uses.specs.Noted.{noted_unit, Where, NotesItem, NotesItems};

use crate::definitions::note_item;
use choice_trees::{Choice, Item};
use cond_formula::{Formula, NoMemory, Oracle};
use cond_selections::Selection;
use cond_units::{FileItems, ItemsBehind, UnitTables};
use conditional::CondList;
use conditional_steps::both_of;
use declarator_lists::{ListEntry, entries};
use std::alloc::Global;
use unit_member_uses::items_keep_names;

/// The uses in an item where the condition is true and it is there. It is declared, by the items behind it, before they are noted.
fn note_entry<F: FileItems, O: Oracle>(
    alloc: Global,
    oracle: &mut O,
    file_items: &F,
    unit: &mut UnitTables,
    when: &Formula,
    entry: &ListEntry<'_>,
    rest: &[ListEntry<'_>],
    log: &mut CondList<Selection>,
) -> Result<(), NoMemory>
    ensures kept { O.admits oracle.new ≡ O.admits oracle.old }
    ensures notes { OnOk result ((c : List Bool) (globals : ℕ) → IsTrue (value (has c) (O.admits oracle.old))
        → Where (value (has c) (condition_of when.now) && value (has c) (condition_of entry.now.when))
        (NotesItem globals (item_at (has c) (plain_item entry.now.item.now)) (trees (seen (has c) (entries_at (has c) rest.now))))
        (noted_unit (has c) unit.old log.old) (noted_unit (has c) unit.new log.new)) }
{
    let behind = ItemsBehind { items: rest };
    let here = both_of(alloc, when, &entry.when)?;
    let item = entry.item;
    let _refused = file_items.declare_item(alloc, oracle, unit, &here, &behind, item)?;
    note_item(alloc, oracle, &mut unit.tables, &here, item, log)?;
    Ok(())
}

/// Those in the items of a list where the condition is true, one after the other.
fn note_each<F: FileItems, O: Oracle>(
    alloc: Global,
    oracle: &mut O,
    file_items: &F,
    unit: &mut UnitTables,
    when: &Formula,
    all: &[ListEntry<'_>],
    log: &mut CondList<Selection>,
) -> Result<(), NoMemory>
    ensures kept { O.admits oracle.new ≡ O.admits oracle.old }
    ensures notes { OnOk result ((c : List Bool) (globals : ℕ) → IsTrue (value (has c) (O.admits oracle.old))
        → Where (value (has c) (condition_of when.now)) (NotesItems globals (trees (seen (has c) (entries_at (has c) all.now)))) (noted_unit (has c) unit.old log.old) (noted_unit (has c) unit.new log.new)) }
{
    items_keep_names();
    for (place, entry) in all.iter().enumerate() {
        let (_, behind) = all.split_at(place + 1);
        note_entry(alloc, oracle, file_items, unit, when, entry, behind, log)?;
    }
    Ok(())
}

/// Declares the items of a unit where the condition is true, each where it is there, and notes the uses of members in them, in the order of the
/// text. The uses of a unit that is refused say nothing.
pub fn note_items<F: FileItems, O: Oracle>(
    alloc: Global,
    oracle: &mut O,
    file_items: &F,
    unit: &mut UnitTables,
    when: &Formula,
    items: &[Choice<Item>],
    log: &mut CondList<Selection>,
) -> Result<(), NoMemory>
    ensures kept { O.admits oracle.new ≡ O.admits oracle.old }
    ensures notes { OnOk result ((c : List Bool) (globals : ℕ) → IsTrue (value (has c) (O.admits oracle.old))
        → Where (value (has c) (condition_of when.now)) (NotesItems globals (parts_at (has c) k.Unit 0 (plain_choices items.now))) (noted_unit (has c) unit.old log.old) (noted_unit (has c) unit.new log.new)) }
{
    let all = entries(alloc, oracle, items)?;
    note_each(alloc, oracle, file_items, unit, when, &all, log)?;
    Ok(())
}
