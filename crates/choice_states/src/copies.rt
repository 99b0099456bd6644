//! Copies of parts.

ghost use Rattle.std.specs.Prelude.{◌≡◌, ℕ, Bool, false, [], ◌∷◌, ◌++◌, map, IsTrue, IfOk, OnOk};
ghost use Rattle.cond_formula.specs.Conditions.{condition_of, conditions_of, value, all_true};
ghost use Rattle.choice_trees.specs.ChoiceTrees.{plain_item, plain_branches, plain_choices};
ghost use Rattle.choice_states.specs.Seen.{branch_seen, choice_seen, seen_in};

use choice_trees::{Choice, Item};
use cond_formula::{Formula, NoMemory};
use path_conditions::{is_excluded, left_of, with, without};
use std::alloc::Global;

#[cycle(copy)]
#[tactic(auto, using(choice_trees::specs::ItemLaws::item_kinds))]
fn copied_item(item: &Item, alloc: Global) -> Result<Item, NoMemory>
    ensures { IfOk result (λ copy. plain_item copy ≡ plain_item item.now) }
{
    match item {
        Item::Leaf(number, token) => Ok(Item::Leaf(*number, token.try_clone(alloc)?)),
        Item::Node(kind, parts) => Ok(Item::Node(*kind, copied_parts(parts, alloc)?)),
    }
}

#[cycle(copy)]
fn copied_choice(choice: &Choice<Item>, alloc: Global) -> Result<Choice<Item>, NoMemory>
    ensures { IfOk result (λ copy. plain_branches copy.branches.items ≡ plain_branches choice.now.branches.items) }
{
    let mut branches: Vec<(Formula, Item)> = Vec::with_capacity(alloc, choice.branches.len())?;
    for (when, item) in &choice.branches {
        let copy = copied_item(item, alloc)?;
        branches.push((when.try_clone(alloc)?, copy))?;
    }
    Ok(Choice { branches })
}

/// Parts that say the same.
#[cycle(copy)]
fn copied_parts(parts: &[Choice<Item>], alloc: Global) -> Result<Vec<Choice<Item>>, NoMemory>
    ensures { IfOk result (λ copies. plain_choices copies.items ≡ plain_choices parts.now) }
{
    let mut copies = Vec::with_capacity(alloc, parts.len())?;
    for part in parts {
        copies.push(copied_choice(part, alloc)?)?;
    }
    Ok(copies)
}

/// An alternative more, if it isn't excluded by what is known.
fn keep(
    branches: &mut Vec<(Formula, Item)>,
    alloc: Global,
    known: &[Formula],
    when: Formula,
    item: Item,
) -> Result<(), NoMemory>
    ensures { OnOk result ((on : ℕ → Bool) → IsTrue (all_true on (conditions_of known.now))
        → branch_seen on (plain_branches branches.new.items) ≡ branch_seen on (plain_branches (branches.old.items ++ (when, item) ∷ []))) }
{
    if is_excluded(&when, known) {
        return Ok(());
    }
    let left = left_of(alloc, &when, known)?;
    branches.push((left, item))?;
    Ok(())
}

/// The alternatives for a part that aren't excluded by what is known.
fn kept_choice(
    choice: Choice<Item>,
    alloc: Global,
    known: &[Formula],
) -> Result<Choice<Item>, NoMemory>
    ensures { IfOk result (λ kept. (on : ℕ → Bool) → IsTrue (all_true on (conditions_of known.now)) → choice_seen on kept ≡ choice_seen on choice) }
{
    let mut branches = Vec::with_capacity(alloc, choice.branches.len())?;
    for (when, item) in choice.branches {
        keep(&mut branches, alloc, known, when, item)?;
    }
    Ok(Choice { branches })
}

/// The parts, where all that is known is true; elsewhere they mean nothing.
fn kept_parts(
    parts: Vec<Choice<Item>>,
    alloc: Global,
    known: &[Formula],
) -> Result<Vec<Choice<Item>>, NoMemory>
    ensures { IfOk result (λ kept. (on : ℕ → Bool) → IsTrue (all_true on (conditions_of known.now)) → map (choice_seen on) kept.items ≡ map (choice_seen on) parts.items) }
{
    let mut kept = Vec::with_capacity(alloc, parts.len())?;
    for part in parts {
        kept.push(kept_choice(part, alloc, known)?)?;
    }
    Ok(kept)
}

/// A copy of the parts for where the formula is true.
pub fn parts_where(
    alloc: Global,
    parts: &[Choice<Item>],
    f: &Formula,
) -> Result<Vec<Choice<Item>>, NoMemory>
    ensures { IfOk result (λ kept. (on : ℕ → Bool) → IsTrue (value on (condition_of f.now)) → seen_in on kept.items ≡ seen_in on parts.now) }
{
    let known = with(alloc, &[], f)?;
    let copies = copied_parts(parts, alloc)?;
    let kept = kept_parts(copies, alloc, &known)?;
    Ok(kept)
}

/// The parts for where the formula isn't true.
pub fn parts_elsewhere(
    alloc: Global,
    parts: Vec<Choice<Item>>,
    f: &Formula,
) -> Result<Vec<Choice<Item>>, NoMemory>
    ensures { IfOk result (λ kept. (on : ℕ → Bool) → value on (condition_of f.now) ≡ false → seen_in on kept.items ≡ seen_in on parts.items) }
{
    let known = without(alloc, &[], f)?;
    let kept = kept_parts(parts, alloc, &known)?;
    Ok(kept)
}
