//! The entries of a list, each where it is there.
ghost use Rattle.std.specs.Prelude.{◌≡◌, ℕ, Bool, false, List, [], ◌∷◌, ◌++◌, IsTrue, IfOk};
ghost use Rattle.cond_formula.specs.Features.{has};
ghost use Rattle.cond_formula.specs.Conditions.{condition_of, value};
ghost use Rattle.conditional.specs.Entries.{seen, under};
ghost use Rattle.c_tree.specs.declared.kinds.Kind.{Kind};
ghost use Rattle.c_tree.specs.Trees.{none};
ghost use Rattle.choice_trees.specs.ChoiceTrees.{plain_item, plain_branches, plain_choices, needs_statement, with_part, item_at, branch_at, parts_at};
ghost use Rattle.declarator_lists.specs.Lists.{trees_of};
ghost use Rattle.declarator_lists.specs.Entries.{entries_at};

use choice_trees::{Choice, Item};
use choice_variants::may_hold;
use cond_formula::{Formula, NoMemory, Oracle};
use reduced_conditions::{both_of, without};
use std::alloc::Global;

/// What stands in a list where a condition is true.
#[derive(Drop)]
pub struct ListEntry<'a> {
    pub when: Formula,
    pub item: &'a Item,
}

/// One more entry, if there may be configurations in which it is there.
fn push_entry<'a, O: Oracle>(
    all: &mut Vec<ListEntry<'a>>,
    oracle: &mut O,
    when: Formula,
    item: &'a Item,
) -> Result<(), NoMemory>
    ensures kept { O.admits oracle.new ≡ O.admits oracle.old }
    ensures adds { IfOk result (λ _. (c : List Bool) → IsTrue (value (has c) (O.admits oracle.old))
        → seen (has c) (entries_at (has c) all.new.items) ≡ seen (has c) (entries_at (has c) all.old.items) ++ under (value (has c) (condition_of when)) (item_at (has c) (plain_item item.now) ∷ [])) }
{
    if !may_hold(&when, oracle) {
        return Ok(());
    }
    all.push(ListEntry { when, item })?;
    Ok(())
}

/// The alternatives for a part: each where it is the first that holds.
fn push_choice<'a, O: Oracle>(
    all: &mut Vec<ListEntry<'a>>,
    alloc: Global,
    oracle: &mut O,
    choice: &'a Choice<Item>,
) -> Result<(), NoMemory>
    ensures kept { O.admits oracle.new ≡ O.admits oracle.old }
    ensures adds { IfOk result (λ _. (c : List Bool) → IsTrue (value (has c) (O.admits oracle.old))
        → seen (has c) (entries_at (has c) all.new.items) ≡ seen (has c) (entries_at (has c) all.old.items) ++ trees_of (with_part false (branch_at (has c) (plain_branches choice.now.branches.items)) none)) }
{
    let mut left = Formula::True;
    for (when, item) in &choice.branches {
        let here = both_of(alloc, &left, when)?;
        push_entry(all, oracle, here, item)?;
        left = without(alloc, left, when)?;
    }
    Ok(())
}

/// The parts of a node that is a list, of which none is a statement that has to be there. What is seen of them is the list that is seen.
pub fn entries<'a, O: Oracle>(
    alloc: Global,
    oracle: &mut O,
    list: &'a [Choice<Item>],
) -> Result<Vec<ListEntry<'a>>, NoMemory>
    ensures kept { O.admits oracle.new ≡ O.admits oracle.old }
    ensures seen { IfOk result (λ all. (c : List Bool) (kind : Kind) → IsTrue (value (has c) (O.admits oracle.old)) → ((place : ℕ) → needs_statement kind place ≡ false)
        → seen (has c) (entries_at (has c) all.items) ≡ trees_of (parts_at (has c) kind 0 (plain_choices list.now))) }
{
    let mut all = Vec::with_capacity(alloc, list.len())?;
    for choice in list {
        push_choice(&mut all, alloc, oracle, choice)?;
    }
    Ok(all)
}
