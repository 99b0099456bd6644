//! The trees of the parameters of a list, each where it is there.
ghost use Rattle.std.specs.Prelude.{◌≡◌, ℕ, Bool, ◌&&◌, List, [], ◌∷◌, ◌++◌, IsTrue, IfOk};
ghost use Rattle.cond_formula.specs.Features.{has};
ghost use Rattle.cond_formula.specs.Conditions.{condition_of, value};
ghost use Rattle.conditional.specs.Entries.{seen, under};
ghost use Rattle.c_tree.specs.Trees.{plain_tree};
ghost use Rattle.choice_trees.specs.ChoiceTrees.{plain_item, plain_choices, item_at, parts_at};
ghost use Rattle.choice_expansions.specs.Expansions.{expanded};
ghost use Rattle.declarator_lists.specs.Entries.{entries_at};
ghost use Rattle.declarator_lists.specs.Lists.{trees_of};
ghost use Rattle.cond_parameters.specs.Readings as spec;
ghost use Rattle.cond_parameters.specs.Readings.{parameters_among};

use c_tree::Kind;
use choice_expansions::{Expansion, expansions};
use choice_trees::{Choice, Item};
use choice_variants::may_hold;
use cond_formula::{Formula, NoMemory, Oracle};
use declarator_lists::{ListEntry, entries};
use reduced_conditions::both_of;
use std::alloc::Global;

fn is_parameter_kind(kind: Kind) -> bool
    ensures { result ≡ spec.is_parameter_kind kind }
{
    matches!(kind, Kind::Parameter)
}

/// Whether an item is a parameter, and not a comma between two.
#[tactic(auto, using(choice_trees::specs::ItemLaws::item_kinds))]
fn is_parameter(item: &Item) -> bool
    ensures { (on : ℕ → Bool) → result ≡ spec.is_parameter (item_at on (plain_item item.now)) }
{
    match item {
        Item::Leaf(..) => false,
        Item::Node(kind, _) => is_parameter_kind(*kind),
    }
}

/// One more tree, if there may be configurations in which both conditions are true.
fn push_tree<O: Oracle>(
    alloc: Global,
    oracle: &mut O,
    all: &mut Vec<Expansion>,
    here: &Formula,
    expansion: &Expansion,
) -> Result<(), NoMemory>
    ensures kept { O.admits oracle.new ≡ O.admits oracle.old }
    ensures adds { IfOk result (λ _. (c : List Bool) → IsTrue (value (has c) (O.admits oracle.old))
        → seen (has c) (expanded all.new.items)
        ≡ seen (has c) (expanded all.old.items) ++ under (value (has c) (condition_of here.now) && value (has c) (condition_of expansion.now.when)) (plain_tree expansion.now.tree ∷ [])) }
{
    let when = both_of(alloc, here, &expansion.when)?;
    if !may_hold(&when, oracle) {
        return Ok(());
    }
    let tree = expansion.tree.try_clone(alloc)?;
    all.push(Expansion { when, tree })?;
    Ok(())
}

/// More trees, where the condition is true.
fn push_trees<O: Oracle>(
    alloc: Global,
    oracle: &mut O,
    all: &mut Vec<Expansion>,
    here: &Formula,
    expansions: &[Expansion],
) -> Result<(), NoMemory>
    ensures kept { O.admits oracle.new ≡ O.admits oracle.old }
    ensures adds { IfOk result (λ _. (c : List Bool) → IsTrue (value (has c) (O.admits oracle.old))
        → seen (has c) (expanded all.new.items) ≡ seen (has c) (expanded all.old.items) ++ under (value (has c) (condition_of here.now)) (seen (has c) (expanded expansions.now))) }
{
    for expansion in expansions {
        push_tree(alloc, oracle, all, here, expansion)?;
    }
    Ok(())
}

/// The trees of an entry, where the condition is true.
fn push_item<O: Oracle>(
    alloc: Global,
    oracle: &mut O,
    all: &mut Vec<Expansion>,
    here: &Formula,
    item: &Item,
) -> Result<(), NoMemory>
    ensures kept { O.admits oracle.new ≡ O.admits oracle.old }
    ensures adds { IfOk result (λ _. (c : List Bool) → IsTrue (value (has c) (O.admits oracle.old))
        → seen (has c) (expanded all.new.items)
        ≡ seen (has c) (expanded all.old.items) ++ under (value (has c) (condition_of here.now)) (item_at (has c) (plain_item item.now) ∷ [])) }
{
    let trees = expansions(alloc, oracle, item)?;
    push_trees(alloc, oracle, all, here, &trees)?;
    Ok(())
}

/// The trees of an entry, if it is a parameter.
fn push_entry<O: Oracle>(
    alloc: Global,
    oracle: &mut O,
    all: &mut Vec<Expansion>,
    when: &Formula,
    entry: &ListEntry<'_>,
) -> Result<(), NoMemory>
    ensures kept { O.admits oracle.new ≡ O.admits oracle.old }
    ensures adds { IfOk result (λ _. (c : List Bool) → IsTrue (value (has c) (O.admits oracle.old))
        → seen (has c) (expanded all.new.items)
        ≡ seen (has c) (expanded all.old.items)
        ++ under (value (has c) (condition_of when.now) && value (has c) (condition_of entry.now.when)) (parameters_among (item_at (has c) (plain_item entry.now.item.now) ∷ []))) }
{
    if !is_parameter(entry.item) {
        return Ok(());
    }
    let here = both_of(alloc, when, &entry.when)?;
    push_item(alloc, oracle, all, &here, entry.item)?;
    Ok(())
}

/// The trees of the entries that are parameters, where the condition is true.
fn push_entries<O: Oracle>(
    alloc: Global,
    oracle: &mut O,
    when: &Formula,
    entries: &[ListEntry<'_>],
) -> Result<Vec<Expansion>, NoMemory>
    ensures kept { O.admits oracle.new ≡ O.admits oracle.old }
    ensures adds { IfOk result (λ all. (c : List Bool) → IsTrue (value (has c) (O.admits oracle.old))
        → seen (has c) (expanded all.items) ≡ under (value (has c) (condition_of when.now)) (parameters_among (seen (has c) (entries_at (has c) entries.now)))) }
{
    let mut all = Vec::new(alloc);
    for entry in entries {
        push_entry(alloc, oracle, &mut all, when, entry)?;
    }
    Ok(all)
}

/// The trees of the parameters of a list where the condition is true, one after the other. What the oracle knows to hold nowhere is left out.
pub(crate) fn parameter_trees<O: Oracle>(
    alloc: Global,
    oracle: &mut O,
    when: &Formula,
    list: &[Choice<Item>],
) -> Result<Vec<Expansion>, NoMemory>
    ensures kept { O.admits oracle.new ≡ O.admits oracle.old }
    ensures seen { IfOk result (λ all. (c : List Bool) → IsTrue (value (has c) (O.admits oracle.old))
        → seen (has c) (expanded all.items)
        ≡ under (value (has c) (condition_of when.now)) (parameters_among (trees_of (parts_at (has c) Kind.Parameters 0 (plain_choices list.now))))) }
{
    let all = entries(alloc, oracle, list)?;
    let trees = push_entries(alloc, oracle, when, &all)?;
    Ok(trees)
}
