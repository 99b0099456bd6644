//! A step under the condition of each alternative, one alternative after the other, is one step by what is seen.
ghost use Rattle.std.specs.Prelude.{◌≡◌, Bool, List, IsTrue, IfOk, if◌then◌else◌};
ghost use Rattle.cond_formula.specs.Features.{has};
ghost use Rattle.cond_formula.specs.Conditions.{condition_of, value};
ghost use Rattle.conditional.specs.Entries.{seen};
ghost use Rattle.c_tree.specs.Trees.{PlainTree, PlainTrees, none, plain_tree};
ghost use Rattle.choice_trees.specs.ChoiceTrees.{plain_item, plain_choices, item_at, parts_at};
ghost use Rattle.choice_variants.specs.Variants.{before, shown};
ghost use Rattle.choice_expansions.specs.Expansions.{expanded};
ghost use Rattle.choice_expansions.specs.Steps.{after_each};

use crate::expanding::expansions;
use crate::rows::Expansion;
use c_tree::{Kind, Tree};
use choice_trees::{Choice, Item};
use choice_variants::{Part, Variant, variants};
use cond_formula::{Formula, NoMemory, Oracle};
use std::alloc::Global;

/// A state of all configurations that goes on by trees.
pub trait StepOnTree {
    /// A state of one configuration.
    ghost Meaning: { Type 0 };

    /// This is what the state is in the configuration.
    ghost means: { Self → List Bool → Meaning → Type 0 };

    /// How the state of one configuration goes on by a tree.
    ghost next: { Meaning → PlainTree → Meaning };

    /// Goes on by the tree where the condition is true, and stays what it is elsewhere.
    fn step<O: Oracle>(
        &mut self,
        alloc: Global,
        oracle: &mut O,
        when: &Formula,
        tree: &Tree,
    ) -> Result<(), NoMemory>
        ensures kept { O.admits oracle.new ≡ O.admits oracle.old }
        ensures steps { IfOk result (λ _. (c : List Bool) (m : Meaning) → IsTrue (value (has c) (O.admits oracle.old)) → means self.old c m
            → means self.new c (if value (has c) (condition_of when.now) then next m (plain_tree tree.now) else m)) };
}

/// A state of all configurations that goes on by the parts of nodes.
pub trait StepOnParts {
    /// A state of one configuration.
    ghost Meaning: { Type 0 };

    /// This is what the state is in the configuration.
    ghost means: { Self → List Bool → Meaning → Type 0 };

    /// How the state of one configuration goes on by parts.
    ghost next: { Meaning → PlainTrees → Meaning };

    /// Goes on by the parts where the condition is true, and stays what it is elsewhere.
    fn step<O: Oracle>(
        &mut self,
        alloc: Global,
        oracle: &mut O,
        when: &Formula,
        parts: &[Part<'_>],
    ) -> Result<(), NoMemory>
        ensures kept { O.admits oracle.new ≡ O.admits oracle.old }
        ensures steps { IfOk result (λ _. (c : List Bool) (m : Meaning) → IsTrue (value (has c) (O.admits oracle.old)) → means self.old c m
            → means self.new c (if value (has c) (condition_of when.now) then next m (before (has c) parts.now none) else m)) };
}

/// Goes on by the trees that are seen.
fn step_on_each<S: StepOnTree, O: Oracle>(
    alloc: Global,
    oracle: &mut O,
    all: &[Expansion],
    state: &mut S,
) -> Result<(), NoMemory>
    ensures kept { O.admits oracle.new ≡ O.admits oracle.old }
    ensures steps { IfOk result (λ _. (c : List Bool) (m : S.Meaning) → IsTrue (value (has c) (O.admits oracle.old)) → S.means state.old c m
        → S.means state.new c (after_each S.next m (seen (has c) (expanded all.now)))) }
{
    for expansion in all {
        state.step(alloc, oracle, &expansion.when, &expansion.tree)?;
    }
    Ok(())
}

/// Goes on by the tree of an item: by each of its expansions under its condition.
pub fn for_each_expansion<S: StepOnTree, O: Oracle>(
    alloc: Global,
    oracle: &mut O,
    item: &Item,
    state: &mut S,
) -> Result<(), NoMemory>
    ensures kept { O.admits oracle.new ≡ O.admits oracle.old }
    ensures steps { IfOk result (λ _. (c : List Bool) (m : S.Meaning) → IsTrue (value (has c) (O.admits oracle.old)) → S.means state.old c m
        → S.means state.new c (S.next m (item_at (has c) (plain_item item.now)))) }
{
    let all = expansions(alloc, oracle, item)?;
    step_on_each(alloc, oracle, &all, state)?;
    Ok(())
}

/// Goes on by the lists of parts that are seen.
fn step_on_all<S: StepOnParts, O: Oracle>(
    alloc: Global,
    oracle: &mut O,
    all: &[Variant<'_>],
    state: &mut S,
) -> Result<(), NoMemory>
    ensures kept { O.admits oracle.new ≡ O.admits oracle.old }
    ensures steps { IfOk result (λ _. (c : List Bool) (m : S.Meaning) → IsTrue (value (has c) (O.admits oracle.old)) → S.means state.old c m
        → S.means state.new c (after_each S.next m (seen (has c) (shown (has c) all.now)))) }
{
    for variant in all {
        state.step(alloc, oracle, &variant.when, &variant.parts)?;
    }
    Ok(())
}

/// Goes on by the parts of a node: by those of each of its variants under its condition.
pub fn for_each_variant<S: StepOnParts, O: Oracle>(
    alloc: Global,
    oracle: &mut O,
    kind: Kind,
    parts: &[Choice<Item>],
    state: &mut S,
) -> Result<(), NoMemory>
    ensures kept { O.admits oracle.new ≡ O.admits oracle.old }
    ensures steps { IfOk result (λ _. (c : List Bool) (m : S.Meaning) → IsTrue (value (has c) (O.admits oracle.old)) → S.means state.old c m
        → S.means state.new c (S.next m (parts_at (has c) kind 0 (plain_choices parts.now)))) }
{
    let all = variants(alloc, kind, parts, oracle)?;
    step_on_all(alloc, oracle, &all, state)?;
    Ok(())
}
