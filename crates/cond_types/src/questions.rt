//! Where an item of a list is so.
ghost use Rattle.std.specs.Prelude.{◌≡◌, ℕ, Bool, false, ◌&&◌, ◌||◌, List, IsTrue, IfOk};
ghost use Rattle.std.specs.List.{list_any};
ghost use Rattle.cond_formula.specs.Features.{has};
ghost use Rattle.cond_formula.specs.Conditions.{condition_of, value};
ghost use Rattle.conditional.specs.Entries.{seen};
ghost use Rattle.c_tree.specs.declared.kinds.Kind.{Kind};
ghost use Rattle.c_tree.specs.Trees.{PlainTree};
ghost use Rattle.choice_trees.specs.ChoiceTrees.{plain_item, plain_choices, needs_statement, item_at, parts_at};
ghost use Rattle.declarator_lists.specs.Lists.{trees_of};
ghost use Rattle.declarator_lists.specs.Entries.{entries_at};

use choice_trees::{Choice, Item};
use cond_formula::{Formula, NoMemory, Oracle};
use conditional_steps::never;
use declarator_lists::{ListEntry, entries};
use reduced_conditions::{both, either};
use std::alloc::Global;

/// What is asked of an item.
pub(crate) trait Question {
    ghost asks: { Self → (ℕ → Bool) → PlainTree → Bool };

    fn where_so<O: Oracle>(
        &self,
        alloc: Global,
        oracle: &mut O,
        item: &Item,
    ) -> Result<Formula, NoMemory>
        ensures kept { O.admits oracle.new ≡ O.admits oracle.old }
        ensures so { IfOk result (λ f. (c : List Bool) → IsTrue (value (has c) (O.admits oracle.old)) → value (has c) (condition_of f) ≡ asks self.now (has c) (item_at (has c) (plain_item item.now))) };
}

fn or_entry<Q: Question, O: Oracle>(
    alloc: Global,
    oracle: &mut O,
    question: &Q,
    so_far: Formula,
    entry: &ListEntry<'_>,
) -> Result<Formula, NoMemory>
    ensures kept { O.admits oracle.new ≡ O.admits oracle.old }
    ensures more { IfOk result (λ f. (c : List Bool) → IsTrue (value (has c) (O.admits oracle.old)) → value (has c) (condition_of f)
        ≡ (value (has c) (condition_of so_far) || (value (has c) (condition_of entry.now.when) && Q.asks question.now (has c) (item_at (has c) (plain_item entry.now.item.now))))) }
{
    let so = question.where_so(alloc, oracle, entry.item)?;
    let here = both(alloc, entry.when.try_clone(alloc)?, so)?;
    let f = either(alloc, so_far, here)?;
    Ok(f)
}

fn where_some_entry<Q: Question, O: Oracle>(
    alloc: Global,
    oracle: &mut O,
    question: &Q,
    all: &[ListEntry<'_>],
) -> Result<Formula, NoMemory>
    ensures kept { O.admits oracle.new ≡ O.admits oracle.old }
    ensures some { IfOk result (λ f. (c : List Bool) → IsTrue (value (has c) (O.admits oracle.old))
        → value (has c) (condition_of f) ≡ list_any (Q.asks question.now (has c)) (seen (has c) (entries_at (has c) all.now))) }
{
    let mut so_far = never()?;
    for entry in all {
        so_far = or_entry(alloc, oracle, question, so_far, entry)?;
    }
    Ok(so_far)
}

/// Where some part of a node that is a list is so.
pub(crate) fn where_some<Q: Question, O: Oracle>(
    alloc: Global,
    oracle: &mut O,
    question: &Q,
    parts: &[Choice<Item>],
) -> Result<Formula, NoMemory>
    ensures kept { O.admits oracle.new ≡ O.admits oracle.old }
    ensures some { IfOk result (λ f. (c : List Bool) (kind : Kind) → IsTrue (value (has c) (O.admits oracle.old)) → ((place : ℕ) → needs_statement kind place ≡ false)
        → value (has c) (condition_of f) ≡ list_any (Q.asks question.now (has c)) (trees_of (parts_at (has c) kind 0 (plain_choices parts.now)))) }
{
    let all = entries(alloc, oracle, parts)?;
    let f = where_some_entry(alloc, oracle, question, &all)?;
    Ok(f)
}
