//! A step for each declarator of a list, one after the other, is a step for each that is seen.
ghost use Rattle.std.specs.Prelude.{◌≡◌, ℕ, Bool, false, List, ◌∷◌, IsTrue, IfOk, Option, option_map, if◌then◌else◌};
ghost use Rattle.cond_formula.specs.Features.{has};
ghost use Rattle.cond_formula.specs.Conditions.{condition_of, value};
ghost use Rattle.conditional.specs.Entries.{seen};
ghost use Rattle.c_tree.specs.declared.kinds.Kind.{Kind};
ghost use Rattle.choice_trees.specs.ChoiceTrees.{plain_item, plain_choices, needs_statement, item_at, parts_at};
ghost use Rattle.choice_expansions.specs.Steps.{after_each};
ghost use Rattle.declarator_lists.specs.Lists as spec;
ghost use Rattle.declarator_lists.specs.Lists.{Declared, declared_in, trees_of, with_initialiser, Steps};
ghost use Rattle.declarator_lists.specs.Entries.{entries_at, all_initialised_at};

use crate::initialised::{Initialised, initialisers};
use crate::items::{ListEntry, entries};
use c_tree::Kind;
use choice_trees::{Choice, Item};
use cond_formula::{Formula, NoMemory, Oracle};
use std::alloc::Global;

/// A state of all configurations that goes on by declarators.
pub trait StepOnDeclarator {
    /// A state of one configuration.
    ghost Meaning: { Type 0 };

    /// This is what the state is in the configuration.
    ghost means: { Self → List Bool → Meaning → Type 0 };

    /// How the state of one configuration goes on by a declarator.
    ghost next: { Meaning → Declared → Meaning };

    /// Goes on by the declarator where the condition is true, and stays what it is elsewhere.
    fn step<O: Oracle>(
        &mut self,
        alloc: Global,
        oracle: &mut O,
        when: &Formula,
        declarator: &Item,
        initialiser: Option<&Item>,
    ) -> Result<(), NoMemory>
        ensures kept { O.admits oracle.new ≡ O.admits oracle.old }
        ensures steps { IfOk result (λ _. (c : List Bool) (m : Meaning) → IsTrue (value (has c) (O.admits oracle.old)) → means self.old c m
            → means self.new c (if value (has c) (condition_of when.now)
            then next m (record { declarator = item_at (has c) (plain_item declarator.now); initialiser = option_map (λ item. item_at (has c) (plain_item item.now)) initialiser.entry })
            else m)) };
}

fn is_declarator_kind(kind: Kind) -> bool
    ensures { result ≡ spec.is_declarator_kind kind }
{
    matches!(
        kind,
        Kind::Declarator | Kind::ArrayDeclarator | Kind::FunctionDeclarator
    )
}

/// Whether an item is a declarator.
#[tactic(auto, using(choice_trees::specs::ItemLaws::item_kinds))]
pub(crate) fn is_declarator(item: &Item) -> bool
    ensures { (on : ℕ → Bool) → result ≡ spec.is_declarator (item_at on (plain_item item.now)) }
{
    match item {
        Item::Leaf(..) => false,
        Item::Node(kind, _) => is_declarator_kind(*kind),
    }
}

/// Goes on by a declarator with each of the initialisers.
fn step_with_each<S: StepOnDeclarator, O: Oracle>(
    alloc: Global,
    oracle: &mut O,
    declarator: &Item,
    all: &[Initialised<'_>],
    state: &mut S,
) -> Result<(), NoMemory>
    ensures kept { O.admits oracle.new ≡ O.admits oracle.old }
    ensures steps { IfOk result (λ _. (c : List Bool) (m : S.Meaning) → IsTrue (value (has c) (O.admits oracle.old)) → S.means state.old c m
        → S.means state.new c (after_each (with_initialiser S.next (item_at (has c) (plain_item declarator.now))) m (seen (has c) (all_initialised_at (has c) all.now)))) }
{
    for initialised in all {
        state.step(
            alloc,
            oracle,
            &initialised.when,
            declarator,
            initialised.initialiser,
        )?;
    }
    Ok(())
}

/// Goes on by a declarator where a condition is true, by what stands behind it.
fn step_on_declarator<S: StepOnDeclarator, O: Oracle>(
    alloc: Global,
    oracle: &mut O,
    entry: &ListEntry<'_>,
    behind: &[ListEntry<'_>],
    state: &mut S,
) -> Result<(), NoMemory>
    ensures kept { O.admits oracle.new ≡ O.admits oracle.old }
    ensures steps { IfOk result (λ _. (c : List Bool) (m : S.Meaning) → IsTrue (value (has c) (O.admits oracle.old)) → S.means state.old c m
        → S.means state.new c (if value (has c) (condition_of entry.now.when)
        then with_initialiser S.next (item_at (has c) (plain_item entry.now.item.now)) m (spec.initialiser_in (seen (has c) (entries_at (has c) behind.now)))
        else m)) }
{
    let all = initialisers(alloc, oracle, behind, &entry.when)?;
    step_with_each(alloc, oracle, entry.item, &all, state)?;
    Ok(())
}

/// Goes on by an entry, if it is a declarator.
fn step_on_entry<S: StepOnDeclarator, O: Oracle>(
    alloc: Global,
    oracle: &mut O,
    entry: &ListEntry<'_>,
    behind: &[ListEntry<'_>],
    state: &mut S,
) -> Result<(), NoMemory>
    ensures kept { O.admits oracle.new ≡ O.admits oracle.old }
    ensures steps { IfOk result (λ _. (c : List Bool) (m : S.Meaning) → IsTrue (value (has c) (O.admits oracle.old)) → S.means state.old c m
        → Steps (S.means state.new c) S.next m (seen (has c) (entries_at (has c) (entry.now ∷ behind.now))) (seen (has c) (entries_at (has c) behind.now))) }
{
    if is_declarator(entry.item) {
        step_on_declarator(alloc, oracle, entry, behind, state)?;
    }
    Ok(())
}

/// Goes on by the declarators of a list, one after the other: by those that are seen, each with its initialiser.
pub fn for_each_declarator<S: StepOnDeclarator, O: Oracle>(
    alloc: Global,
    oracle: &mut O,
    list: &[Choice<Item>],
    state: &mut S,
) -> Result<(), NoMemory>
    ensures kept { O.admits oracle.new ≡ O.admits oracle.old }
    ensures steps { IfOk result (λ _. (c : List Bool) (kind : Kind) (m : S.Meaning) → IsTrue (value (has c) (O.admits oracle.old)) → ((place : ℕ) → needs_statement kind place ≡ false) → S.means state.old c m
        → S.means state.new c (after_each S.next m (declared_in (trees_of (parts_at (has c) kind 0 (plain_choices list.now)))))) }
{
    let all = entries(alloc, oracle, list)?;
    for (place, entry) in all.iter().enumerate() {
        let (_, behind) = all.split_at(place + 1);
        step_on_entry(alloc, oracle, entry, behind, state)?;
    }
    Ok(())
}
