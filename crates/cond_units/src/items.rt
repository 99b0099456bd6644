//! The items of a unit, one after the other, each where it is there (6.9).
ghost use Rattle.std.specs.Prelude.{◌≡◌, ℕ, Bool, ◌&&◌, List, IsTrue, IfOk};
ghost use Rattle.cond_formula.specs.Features.{has};
ghost use Rattle.cond_formula.specs.Conditions.{condition_of, value};
ghost use Rattle.conditional.specs.Entries.{seen};
ghost use Rattle.c_tree.specs.declared.kinds.Kind.TheVariants as k;
ghost use Rattle.c_tree.specs.Trees.{trees};
ghost use Rattle.c_tree.specs.Grammar.{file_item};
ghost use Rattle.tree_derivations.specs.Derivations.{Derivation};
ghost use Rattle.choice_trees.specs.ChoiceTrees.{plain_item, plain_choices, item_at, parts_at};
ghost use Rattle.declarator_lists.specs.Entries.{entries_at};
ghost use Rattle.cond_units.specs.Seen.{seen_unit};
ghost use Rattle.cond_units.specs.Where.{Where};
ghost use Rattle.cond_units.specs.Items.{DeclaresItem};
ghost use Rattle.cond_units.specs.Units.{one_item, DeclaresItems};

use crate::behind::ItemsBehind;
use crate::{Behind, UnitTables};
use choice_trees::{Choice, Item};
use cond_formula::{Formula, NoMemory, Oracle};
use conditional_steps::{both_of, never};
use declarator_lists::{ListEntry, entries};
use reduced_conditions::either;
use std::alloc::Global;

/// How items are declared.
pub trait FileItems {
    /// An item where the condition is true, by what stands behind it. The answer is where it is refused.
    fn declare_item<B: Behind, O: Oracle>(
        &self,
        alloc: Global,
        oracle: &mut O,
        unit: &mut UnitTables,
        when: &Formula,
        behind: &B,
        item: &Item,
    ) -> Result<Formula, NoMemory>
        ensures kept { O.admits oracle.new ≡ O.admits oracle.old }
        ensures declares { IfOk result (λ f. (c : List Bool) (globals : ℕ) → IsTrue (value (has c) (O.admits oracle.old))
            → Where (value (has c) (condition_of when.now))
            (DeclaresItem (one_item globals (item_at (has c) (plain_item item.now)) (B.rest behind.now c)) (Derivation file_item (item_at (has c) (plain_item item.now))))
            (seen_unit (has c) unit.old) (seen_unit (has c) unit.new) (value (has c) (condition_of f))) };
}

/// An item where the condition is true and it is there, by the items behind it.
fn declare_entry<F: FileItems, O: Oracle>(
    alloc: Global,
    oracle: &mut O,
    file_items: &F,
    unit: &mut UnitTables,
    when: &Formula,
    entry: &ListEntry<'_>,
    rest: &[ListEntry<'_>],
) -> Result<Formula, NoMemory>
    ensures kept { O.admits oracle.new ≡ O.admits oracle.old }
    ensures declares { IfOk result (λ f. (c : List Bool) (globals : ℕ) → IsTrue (value (has c) (O.admits oracle.old))
        → Where (value (has c) (condition_of when.now) && value (has c) (condition_of entry.now.when))
        (DeclaresItem (one_item globals (item_at (has c) (plain_item entry.now.item.now)) (trees (seen (has c) (entries_at (has c) rest.now)))) (Derivation file_item (item_at (has c) (plain_item entry.now.item.now))))
        (seen_unit (has c) unit.old) (seen_unit (has c) unit.new) (value (has c) (condition_of f))) }
{
    let behind = ItemsBehind { items: rest };
    let here = both_of(alloc, when, &entry.when)?;
    let item = entry.item;
    let refused = file_items.declare_item(alloc, oracle, unit, &here, &behind, item)?;
    Ok(refused)
}

/// The items of a list where the condition is true, one after the other.
fn declare_each<F: FileItems, O: Oracle>(
    alloc: Global,
    oracle: &mut O,
    file_items: &F,
    unit: &mut UnitTables,
    when: &Formula,
    all: &[ListEntry<'_>],
) -> Result<Formula, NoMemory>
    ensures kept { O.admits oracle.new ≡ O.admits oracle.old }
    ensures declares { IfOk result (λ f. (c : List Bool) (globals : ℕ) → IsTrue (value (has c) (O.admits oracle.old))
        → Where (value (has c) (condition_of when.now)) (DeclaresItems globals (trees (seen (has c) (entries_at (has c) all.now)))) (seen_unit (has c) unit.old) (seen_unit (has c) unit.new) (value (has c) (condition_of f))) }
{
    let mut refused = never()?;
    for (place, entry) in all.iter().enumerate() {
        let (_, behind) = all.split_at(place + 1);
        let found = declare_entry(alloc, oracle, file_items, unit, when, entry, behind)?;
        refused = either(alloc, refused, found)?;
    }
    Ok(refused)
}

/// The items of a unit where the condition is true, each where it is there. The answer is where one is refused.
pub fn declare_items<F: FileItems, O: Oracle>(
    alloc: Global,
    oracle: &mut O,
    file_items: &F,
    unit: &mut UnitTables,
    when: &Formula,
    items: &[Choice<Item>],
) -> Result<Formula, NoMemory>
    ensures kept { O.admits oracle.new ≡ O.admits oracle.old }
    ensures declares { IfOk result (λ f. (c : List Bool) (globals : ℕ) → IsTrue (value (has c) (O.admits oracle.old))
        → Where (value (has c) (condition_of when.now)) (DeclaresItems globals (parts_at (has c) k.Unit 0 (plain_choices items.now))) (seen_unit (has c) unit.old) (seen_unit (has c) unit.new) (value (has c) (condition_of f))) }
{
    let all = entries(alloc, oracle, items)?;
    let refused = declare_each(alloc, oracle, file_items, unit, when, &all)?;
    Ok(refused)
}
