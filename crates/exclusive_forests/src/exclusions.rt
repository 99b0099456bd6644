//! Alternatives under conditions that exclude those of the alternatives before them.

ghost use Rattle.std.specs.Prelude.{◌≡◌, ℕ, Bool, not, ◌&&◌, IsTrue, IfOk};
ghost use Rattle.cond_formula.specs.Conditions.{condition_of, conditions_of, value, all_true};
ghost use Rattle.choice_trees.specs.ChoiceTrees.{plain_item, plain_branches, plain_choices};
ghost use Rattle.exclusive_forests.specs.Apart.{any_holds, ItemApart, ChoiceApart, PartsApart, ForestApart};

use choice_trees::{Choice, Forest, Item};
use cond_formula::{Formula, NoMemory};
use path_conditions::{is_excluded, with};
use reduced_conditions::without;
use std::alloc::Global;

/// The condition where the other isn't true, by what is known where it is.
fn apart(
    alloc: Global,
    when: Formula,
    other: &Formula,
    known: &[Formula],
) -> Result<Formula, NoMemory>
    ensures { IfOk result (λ f. (on : ℕ → Bool) → (IsTrue (value on (condition_of when)) → IsTrue (all_true on (conditions_of known.now)))
        → value on (condition_of f) ≡ (value on (condition_of when) && not (value on (condition_of other.now)))) }
{
    if is_excluded(other, known) {
        return Ok(when);
    }
    let apart = without(alloc, when, other)?;
    Ok(apart)
}

/// The condition where none of these alternatives holds.
fn alone(alloc: Global, when: Formula, others: &[(Formula, Item)]) -> Result<Formula, NoMemory>
    ensures { IfOk result (λ f. (on : ℕ → Bool) → value on (condition_of f) ≡ (value on (condition_of when) && not (any_holds on (plain_branches others.now)))) }
{
    let known = with(alloc, &[], &when)?;
    let mut alone = when;
    for (other, _) in others {
        alone = apart(alloc, alone, other, &known)?;
    }
    Ok(alone)
}

/// The same item, with alternatives that exclude each other.
#[cycle(exclude)]
#[tactic(auto, using(choice_trees::specs::ItemLaws::item_kinds, crate::proofs::ApartLaws::apart_laws))]
fn exclusive_item(item: Item, alloc: Global) -> Result<Item, NoMemory>
    ensures { IfOk result (λ new. (on : ℕ → Bool) → ItemApart on (plain_item item) (plain_item new)) }
{
    match item {
        Item::Leaf(number, token) => Ok(Item::Leaf(number, token)),
        Item::Node(kind, parts) => Ok(Item::Node(kind, exclusive_parts(parts, alloc)?)),
    }
}

#[cycle(exclude)]
#[tactic(auto, using(crate::proofs::ApartLaws::apart_laws))]
fn exclusive_choice(choice: Choice<Item>, alloc: Global) -> Result<Choice<Item>, NoMemory>
    ensures { IfOk result (λ new. (on : ℕ → Bool) → ChoiceApart on (plain_branches choice.branches.items) (plain_branches new.branches.items)) }
{
    let mut branches = Vec::with_capacity(alloc, choice.branches.len())?;
    for (when, item) in choice.branches {
        let item = exclusive_item(item, alloc)?;
        let when = alone(alloc, when, &branches)?;
        branches.push((when, item))?;
    }
    Ok(Choice { branches })
}

#[cycle(exclude)]
#[tactic(auto, using(crate::proofs::ApartLaws::apart_laws))]
fn exclusive_parts(parts: Vec<Choice<Item>>, alloc: Global) -> Result<Vec<Choice<Item>>, NoMemory>
    ensures { IfOk result (λ new. (on : ℕ → Bool) → PartsApart on (plain_choices parts.items) (plain_choices new.items)) }
{
    let mut apart = Vec::with_capacity(alloc, parts.len())?;
    for part in parts {
        let part = exclusive_choice(part, alloc)?;
        apart.push(part)?;
    }
    Ok(apart)
}

/// The same trees of a unit, with alternatives for each part that exclude each other in every configuration.
#[tactic(auto, using(crate::proofs::ApartLaws::apart_laws))]
pub fn exclusive(alloc: Global, forest: Forest) -> Result<Forest, NoMemory>
    ensures { IfOk result (λ new. (on : ℕ → Bool) → ForestApart on forest new) }
{
    let Forest { items } = forest;
    let items = exclusive_parts(items, alloc)?;
    Ok(Forest { items })
}
