//! Which initialiser a declarator has.
ghost use Rattle.std.specs.Prelude.{◌≡◌, ℕ, Bool, List, [], ◌∷◌, ◌++◌, map, None, option_map, IsTrue, IfOk};
ghost use Rattle.cond_formula.specs.Features.{has};
ghost use Rattle.cond_formula.specs.Conditions.{condition_of, value};
ghost use Rattle.conditional.specs.Entries.{first, seen, under};
ghost use Rattle.choice_trees.specs.ChoiceTrees.{plain_item, item_at};
ghost use Rattle.declarator_lists.specs.Lists as spec;
ghost use Rattle.declarator_lists.specs.Entries.{entries_at, beginning_at, heads_at, all_initialised_at};

use crate::beginnings::{Beginning, Head, heads};
use crate::items::ListEntry;
use c_tree::{Terminal, terminal};
use choice_trees::Item;
use cond_formula::{Formula, NoMemory, Oracle};
use std::alloc::Global;

/// The initialiser that a declarator has where a condition is true, if it has one there.
#[derive(Drop)]
pub(crate) struct Initialised<'a> {
    pub(crate) when: Formula,
    pub(crate) initialiser: Option<&'a Item>,
}

/// Whether an item is the sign before an initialiser.
#[tactic(auto, using(choice_trees::specs::ItemLaws::item_kinds))]
fn is_assign(item: &Item) -> bool
    ensures { (on : ℕ → Bool) → result ≡ spec.is_assign (item_at on (plain_item item.now)) }
{
    match item {
        Item::Leaf(_, token) => Terminal::Assign.is(terminal(token)),
        Item::Node(..) => false,
    }
}

/// What comes first, if anything.
fn first_of<'a>(beginning: &Option<Beginning<'_, 'a>>) -> Option<&'a Item>
    ensures { (on : ℕ → Bool) → option_map (λ item. item_at on (plain_item item.now)) result ≡ first (beginning_at on beginning.now) }
{
    match beginning {
        Some(b) => Some(b.first),
        None => None,
    }
}

/// What the lists behind the sign begin with, each where its condition is true.
fn push_firsts<'a>(
    all: &mut Vec<Initialised<'a>>,
    alloc: Global,
    values: &[Head<'_, 'a>],
) -> Result<(), NoMemory>
    ensures { IfOk result (λ _. (on : ℕ → Bool) → seen on (all_initialised_at on all.new.items) ≡ seen on (all_initialised_at on all.old.items) ++ map first (seen on (heads_at on values.now))) }
{
    for value in values {
        let when = value.when.try_clone(alloc)?;
        let initialiser = first_of(&value.beginning);
        all.push(Initialised { when, initialiser })?;
    }
    Ok(())
}

/// The initialisers behind a sign, where a condition is true.
fn push_values<'a, O: Oracle>(
    all: &mut Vec<Initialised<'a>>,
    alloc: Global,
    oracle: &mut O,
    when: &Formula,
    rest: &[ListEntry<'a>],
) -> Result<(), NoMemory>
    ensures kept { O.admits oracle.new ≡ O.admits oracle.old }
    ensures adds { IfOk result (λ _. (c : List Bool) → IsTrue (value (has c) (O.admits oracle.old))
        → seen (has c) (all_initialised_at (has c) all.new.items) ≡ seen (has c) (all_initialised_at (has c) all.old.items) ++ under (value (has c) (condition_of when.now)) (first (seen (has c) (entries_at (has c) rest.now)) ∷ [])) }
{
    let values = heads(alloc, oracle, rest, when)?;
    push_firsts(all, alloc, &values)?;
    Ok(())
}

/// No initialiser where a condition is true.
fn push_none(all: &mut Vec<Initialised<'_>>, alloc: Global, when: &Formula) -> Result<(), NoMemory>
    ensures { IfOk result (λ _. (on : ℕ → Bool) → seen on (all_initialised_at on all.new.items) ≡ seen on (all_initialised_at on all.old.items) ++ under (value on (condition_of when.now)) (None ∷ [])) }
{
    all.push(Initialised {
        when: when.try_clone(alloc)?,
        initialiser: None,
    })?;
    Ok(())
}

/// The initialisers where the list behind a declarator begins so.
fn push_initialisers<'a, O: Oracle>(
    all: &mut Vec<Initialised<'a>>,
    alloc: Global,
    oracle: &mut O,
    head: &Head<'_, 'a>,
) -> Result<(), NoMemory>
    ensures kept { O.admits oracle.new ≡ O.admits oracle.old }
    ensures adds { IfOk result (λ _. (c : List Bool) → IsTrue (value (has c) (O.admits oracle.old))
        → seen (has c) (all_initialised_at (has c) all.new.items) ≡ seen (has c) (all_initialised_at (has c) all.old.items) ++ under (value (has c) (condition_of head.now.when)) (spec.initialiser_in (beginning_at (has c) head.now.beginning) ∷ [])) }
{
    match &head.beginning {
        Some(b) => {
            if is_assign(b.first) {
                push_values(all, alloc, oracle, &head.when, b.rest)
            } else {
                push_none(all, alloc, &head.when)
            }
        }
        None => push_none(all, alloc, &head.when),
    }
}

/// The initialisers of a declarator where a condition is true, by what stands behind it: one in each configuration.
pub(crate) fn initialisers<'a, O: Oracle>(
    alloc: Global,
    oracle: &mut O,
    behind: &[ListEntry<'a>],
    when: &Formula,
) -> Result<Vec<Initialised<'a>>, NoMemory>
    ensures kept { O.admits oracle.new ≡ O.admits oracle.old }
    ensures alone { IfOk result (λ all. (c : List Bool) → IsTrue (value (has c) (O.admits oracle.old))
        → seen (has c) (all_initialised_at (has c) all.items) ≡ under (value (has c) (condition_of when.now)) (spec.initialiser_in (seen (has c) (entries_at (has c) behind.now)) ∷ [])) }
{
    let heads = heads(alloc, oracle, behind, when)?;
    let mut all = Vec::with_capacity(alloc, heads.len())?;
    for head in &heads {
        push_initialisers(&mut all, alloc, oracle, head)?;
    }
    Ok(all)
}
