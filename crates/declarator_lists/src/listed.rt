//! The declarators of a list, each with its initialiser.
ghost use Rattle.std.specs.Prelude.{◌≡◌, ℕ, Bool, false, List, [], ◌∷◌, ◌++◌, map, IsTrue, IfOk};
ghost use Rattle.cond_formula.specs.Features.{has};
ghost use Rattle.cond_formula.specs.Conditions.{condition_of, value};
ghost use Rattle.conditional.specs.Entries.{seen, under};
ghost use Rattle.c_tree.specs.declared.kinds.Kind.{Kind};
ghost use Rattle.choice_trees.specs.ChoiceTrees.{plain_item, plain_choices, needs_statement, item_at, parts_at};
ghost use Rattle.declarator_lists.specs.Lists.{declared, declared_in, initialiser_in, trees_of};
ghost use Rattle.declarator_lists.specs.Entries.{entries_at, all_initialised_at, listed_at};

use crate::initialised::{Initialised, initialisers};
use crate::items::{ListEntry, entries};
use crate::stepping::is_declarator;
use choice_trees::{Choice, Item};
use cond_formula::{Formula, NoMemory, Oracle};
use std::alloc::Global;

/// A declarator where a condition is true, with the initialiser that it has there.
#[derive(Drop)]
pub struct ListedDeclarator<'a> {
    pub when: Formula,
    pub declarator: &'a Item,
    pub initialiser: Option<&'a Item>,
}

/// A declarator with each of its initialisers.
fn push_each<'a>(
    all: &mut Vec<ListedDeclarator<'a>>,
    alloc: Global,
    declarator: &'a Item,
    initialised: &[Initialised<'a>],
) -> Result<(), NoMemory>
    ensures { IfOk result (λ _. (on : ℕ → Bool) → seen on (listed_at on all.new.items) ≡ seen on (listed_at on all.old.items) ++ map (declared (item_at on (plain_item declarator.now))) (seen on (all_initialised_at on initialised.now))) }
{
    for one in initialised {
        let when = one.when.try_clone(alloc)?;
        all.push(ListedDeclarator {
            when,
            declarator,
            initialiser: one.initialiser,
        })?;
    }
    Ok(())
}

/// A declarator where it is there, by what stands behind it.
fn push_declarator<'a, O: Oracle>(
    all: &mut Vec<ListedDeclarator<'a>>,
    alloc: Global,
    oracle: &mut O,
    entry: &ListEntry<'a>,
    behind: &[ListEntry<'a>],
) -> Result<(), NoMemory>
    ensures kept { O.admits oracle.new ≡ O.admits oracle.old }
    ensures adds { IfOk result (λ _. (c : List Bool) → IsTrue (value (has c) (O.admits oracle.old))
        → seen (has c) (listed_at (has c) all.new.items) ≡ seen (has c) (listed_at (has c) all.old.items)
        ++ under (value (has c) (condition_of entry.now.when)) (declared (item_at (has c) (plain_item entry.now.item.now)) (initialiser_in (seen (has c) (entries_at (has c) behind.now))) ∷ [])) }
{
    let initialised = initialisers(alloc, oracle, behind, &entry.when)?;
    push_each(all, alloc, entry.item, &initialised)?;
    Ok(())
}

/// An entry, if it is a declarator.
fn push_if_declarator<'a, O: Oracle>(
    all: &mut Vec<ListedDeclarator<'a>>,
    alloc: Global,
    oracle: &mut O,
    entry: &ListEntry<'a>,
    behind: &[ListEntry<'a>],
) -> Result<(), NoMemory>
    ensures kept { O.admits oracle.new ≡ O.admits oracle.old }
    ensures adds { IfOk result (λ _. (c : List Bool) → IsTrue (value (has c) (O.admits oracle.old))
        → seen (has c) (listed_at (has c) all.new.items) ++ declared_in (seen (has c) (entries_at (has c) behind.now))
        ≡ seen (has c) (listed_at (has c) all.old.items) ++ declared_in (seen (has c) (entries_at (has c) (entry.now ∷ behind.now)))) }
{
    if is_declarator(entry.item) {
        push_declarator(all, alloc, oracle, entry, behind)?;
    }
    Ok(())
}

/// The declarators of a list in their order, each where it is there: in a configuration, those that are seen, each with its initialiser.
pub fn listed_declarators<'a, O: Oracle>(
    alloc: Global,
    oracle: &mut O,
    list: &'a [Choice<Item>],
) -> Result<Vec<ListedDeclarator<'a>>, NoMemory>
    ensures kept { O.admits oracle.new ≡ O.admits oracle.old }
    ensures seen { IfOk result (λ all. (c : List Bool) (kind : Kind) → IsTrue (value (has c) (O.admits oracle.old)) → ((place : ℕ) → needs_statement kind place ≡ false)
        → seen (has c) (listed_at (has c) all.items) ≡ declared_in (trees_of (parts_at (has c) kind 0 (plain_choices list.now)))) }
{
    let entries = entries(alloc, oracle, list)?;
    let mut all = Vec::with_capacity(alloc, entries.len())?;
    for (place, entry) in entries.iter().enumerate() {
        let (_, behind) = entries.split_at(place + 1);
        push_if_declarator(&mut all, alloc, oracle, entry, behind)?;
    }
    Ok(all)
}
