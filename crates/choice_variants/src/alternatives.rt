//! Variants that go on by the alternatives for one more part.
ghost use Rattle.std.specs.Prelude.{◌≡◌, ℕ, ◌≤◌, Bool, false, List, [], ◌∷◌, ◌++◌, IsTrue, IfOk};
ghost use Rattle.cond_formula.specs.Features.{has};
ghost use Rattle.cond_formula.specs.Conditions.{condition_of, value};
ghost use Rattle.conditional.specs.Entries.{seen, under};
ghost use Rattle.c_tree.specs.Trees.{PlainTrees};
ghost use Rattle.choice_trees.specs.ChoiceTrees.{plain_branches, with_part, branch_at};
ghost use Rattle.choice_trees.specs.Depths.{branches_depth};
ghost use Rattle.choice_variants.specs.Variants.{before, perhaps_before, followed, AreLow, AreAllLow, IsLowIfAny};

use crate::parts::{Part, Variant, longer, part_left_out};
use choice_trees::{Choice, Item};
use cond_formula::{Formula, May, NoMemory, Oracle};
use reduced_conditions::{both_of, is_never, without};
use std::alloc::Global;

/// Whether there may be configurations in which the condition is true.
pub fn may_hold<O: Oracle>(when: &Formula, oracle: &mut O) -> bool
    ensures kept { O.admits oracle.new ≡ O.admits oracle.old }
    ensures no { result ≡ false → (c : List Bool) → IsTrue (value (has c) (O.admits oracle.old)) → value (has c) (condition_of when.now) ≡ false }
{
    if is_never(when) {
        return false;
    }
    match oracle.may(when) {
        May::No => false,
        May::Maybe => true,
    }
}

/// One more variant, if there may be configurations in which it holds: parts, and one more behind them if there is one.
fn push_longer<'a, O: Oracle>(
    all: &mut Vec<Variant<'a>>,
    alloc: Global,
    when: Formula,
    parts: &[Part<'a>],
    part: Option<Part<'a>>,
    oracle: &mut O,
) -> Result<(), NoMemory>
    ensures kept { O.admits oracle.new ≡ O.admits oracle.old }
    ensures adds { IfOk result (λ _. (c : List Bool) (rest : PlainTrees) → IsTrue (value (has c) (O.admits oracle.old))
        → seen (has c) (followed (has c) rest all.new.items)
        ≡ seen (has c) (followed (has c) rest all.old.items) ++ under (value (has c) (condition_of when)) (before (has c) parts.now (perhaps_before (has c) part.entry rest) ∷ [])) }
    ensures low { IfOk result (λ _. (n : ℕ) → AreLow n parts.now → IsLowIfAny n part.entry → AreAllLow n all.old.items → AreAllLow n all.new.items) }
{
    if !may_hold(&when, oracle) {
        return Ok(());
    }
    let parts = longer(alloc, parts, part)?;
    all.push(Variant { when, parts })?;
    Ok(())
}

/// A variant goes on by each of the alternatives where that is the first that holds, and without them elsewhere.
fn push_alternatives<'a, O: Oracle>(
    all: &mut Vec<Variant<'a>>,
    alloc: Global,
    needed: bool,
    choice: &'a Choice<Item>,
    variant: &Variant<'a>,
    oracle: &mut O,
) -> Result<(), NoMemory>
    ensures kept { O.admits oracle.new ≡ O.admits oracle.old }
    ensures adds { IfOk result (λ _. (c : List Bool) (rest : PlainTrees) → IsTrue (value (has c) (O.admits oracle.old))
        → seen (has c) (followed (has c) rest all.new.items)
        ≡ seen (has c) (followed (has c) rest all.old.items) ++ under (value (has c) (condition_of variant.now.when))
        (before (has c) variant.now.parts.items (with_part needed (branch_at (has c) (plain_branches choice.now.branches.items)) rest) ∷ [])) }
    ensures low { IfOk result (λ _. (n : ℕ) → branches_depth (plain_branches choice.now.branches.items) ≤ n → AreLow n variant.now.parts.items → AreAllLow n all.old.items → AreAllLow n all.new.items) }
{
    let mut left = variant.when.try_clone(alloc)?;
    for (when, item) in &choice.branches {
        let here = both_of(alloc, &left, when)?;
        let part = Some(Part::Item(item));
        push_longer(all, alloc, here, &variant.parts, part, oracle)?;
        left = without(alloc, left, when)?;
    }
    let part = part_left_out(needed);
    push_longer(all, alloc, left, &variant.parts, part, oracle)?;
    Ok(())
}

/// The variants with one part more.
pub(crate) fn extended<'a, O: Oracle>(
    alloc: Global,
    needed: bool,
    choice: &'a Choice<Item>,
    variants: &[Variant<'a>],
    oracle: &mut O,
) -> Result<Vec<Variant<'a>>, NoMemory>
    ensures kept { O.admits oracle.new ≡ O.admits oracle.old }
    ensures same { IfOk result (λ all. (c : List Bool) (rest : PlainTrees) → IsTrue (value (has c) (O.admits oracle.old))
        → seen (has c) (followed (has c) rest all.items)
        ≡ seen (has c) (followed (has c) (with_part needed (branch_at (has c) (plain_branches choice.now.branches.items)) rest) variants.now)) }
    ensures low { IfOk result (λ all. (n : ℕ) → branches_depth (plain_branches choice.now.branches.items) ≤ n → AreAllLow n variants.now → AreAllLow n all.items) }
{
    let mut all = Vec::new(alloc);
    for variant in variants {
        push_alternatives(&mut all, alloc, needed, choice, variant, oracle)?;
    }
    Ok(all)
}
