//! Where the trees of a forest are at least so high.

ghost use Rattle.std.specs.Prelude.{◌≡◌, ℕ, ◌+◌, Bool, nat_le, nat_lt, IfOk};
ghost use Rattle.cond_formula.specs.Conditions.{condition_of, value};
ghost use Rattle.c_tree.specs.Trees.{node};
ghost use Rattle.c_tree.specs.Heights.{height_of, highest_of, most_high};
ghost use Rattle.choice_trees.specs.ChoiceTrees.{plain_item, plain_branches, plain_choices, item_at, branch_at, parts_at, forest_at};
ghost use Rattle.forest_heights.specs.Levels.{Tells, height_or, missing_height};

use crate::alternatives::{known, with_alternative, with_rest};
use crate::levels::{further_levels, sure_levels};
use c_tree::{Kind, token_height};
use choice_trees::{Choice, Forest, Item};
use cond_formula::{Formula, NoMemory};
use reduced_conditions::{both, either, is_never, without};
use std::alloc::Global;

/// The least height that is too high.
const TOO_HIGH: usize = 513;

/// How high what stands for a part is where no alternative holds: `;` where a statement is needed, else nothing.
fn missing_height(kind: Kind, place: usize) -> usize
    ensures { result ≡ missing_height kind place }
{
    match kind {
        Kind::If | Kind::While if place == 4 => 1,
        Kind::Else | Kind::Do if place == 1 => 1,
        Kind::For if place == 7 => 1,
        _ => 0,
    }
}

/// Where an item's tree is at least so high.
#[cycle(reach)]
#[tactic(auto, using(choice_trees::specs::ItemLaws::item_kinds))]
fn item_reaches(item: &Item, alloc: Global, high: usize) -> Result<Formula, NoMemory>
    ensures { IfOk result (λ f. (on : ℕ → Bool) → value on (condition_of f) ≡ nat_le high (height_of (item_at on (plain_item item.now)))) }
{
    match item {
        Item::Leaf(_, token) => Ok(known(high <= token_height(token) as usize)),
        Item::Node(kind, parts) => node_reaches(*kind, parts, alloc, high),
    }
}

/// Where what stands for a part is at least so high.
#[cycle(reach)]
fn choice_reaches(
    choice: &Choice<Item>,
    alloc: Global,
    high: usize,
    missing: usize,
) -> Result<Formula, NoMemory>
    ensures { IfOk result (λ f. (on : ℕ → Bool) → value on (condition_of f) ≡ nat_le high (height_or missing (branch_at on (plain_branches choice.now.branches.items)))) }
{
    let mut reached = Formula::False;
    let mut left = Formula::True;
    for (when, item) in &choice.branches {
        let here = item_reaches(item, alloc, high)?;
        reached = with_alternative(alloc, reached, &left, when, here)?;
        left = without(alloc, left, when)?;
    }
    let all = with_rest(alloc, reached, left, high <= missing)?;
    Ok(all)
}

/// Where one of a node's parts is at least so high.
#[cycle(reach)]
fn part_reaches(
    kind: Kind,
    parts: &[Choice<Item>],
    alloc: Global,
    high: usize,
) -> Result<Formula, NoMemory>
    ensures { IfOk result (λ f. (on : ℕ → Bool) → value on (condition_of f) ≡ nat_le high (highest_of (parts_at on kind 0 (plain_choices parts.now)))) }
{
    if high == 0 {
        return Ok(Formula::True);
    }
    let mut reached = Formula::False;
    for (place, part) in parts.iter().enumerate() {
        let here = choice_reaches(part, alloc, high, missing_height(kind, place))?;
        reached = either(alloc, reached, here)?;
    }
    Ok(reached)
}

/// Where one of a node's parts is at least so high, less the levels that are told.
#[cycle(reach)]
fn any_level_reaches(
    kind: Kind,
    parts: &[Choice<Item>],
    levels: &[Formula],
    alloc: Global,
    high: usize,
) -> Result<Formula, NoMemory>
    ensures { IfOk result (λ f. (on : ℕ → Bool) (count : ℕ) → Tells on levels.now count
        → value on (condition_of f) ≡ nat_le high (count + highest_of (parts_at on kind 0 (plain_choices parts.now)))) }
{
    let mut reached = part_reaches(kind, parts, alloc, high)?;
    for (place, level) in levels.iter().enumerate() {
        let below = part_reaches(kind, parts, alloc, high.saturating_sub(place + 1))?;
        let here = both(alloc, level.try_clone(alloc)?, below)?;
        reached = either(alloc, reached, here)?;
    }
    Ok(reached)
}

/// The same. The parts are walked through again only where they reach the lowest height that can matter.
#[cycle(reach)]
fn level_reaches(
    kind: Kind,
    parts: &[Choice<Item>],
    levels: &[Formula],
    alloc: Global,
    high: usize,
) -> Result<Formula, NoMemory>
    ensures { IfOk result (λ f. (on : ℕ → Bool) (count : ℕ) → Tells on levels.now count
        → value on (condition_of f) ≡ nat_le high (count + highest_of (parts_at on kind 0 (plain_choices parts.now)))) }
{
    let lowest = part_reaches(kind, parts, alloc, high.saturating_sub(levels.len()))?;
    if levels.is_empty() || is_never(&lowest) {
        return Ok(lowest);
    }
    any_level_reaches(kind, parts, levels, alloc, high)
}

/// Where a node is at least so high.
#[cycle(reach)]
fn node_reaches(
    kind: Kind,
    parts: &[Choice<Item>],
    alloc: Global,
    high: usize,
) -> Result<Formula, NoMemory>
    ensures { IfOk result (λ f. (on : ℕ → Bool) → value on (condition_of f) ≡ nat_le high (height_of (node kind (parts_at on kind 0 (plain_choices parts.now))))) }
{
    let levels = further_levels(kind, parts, alloc)?;
    level_reaches(
        kind,
        parts,
        &levels,
        alloc,
        high.saturating_sub(sure_levels(kind)),
    )
}

/// Where the tree that a configuration sees is higher than a unit's tree may be.
pub fn too_high(alloc: Global, forest: &Forest) -> Result<Formula, NoMemory>
    ensures { IfOk result (λ f. (on : ℕ → Bool) → value on (condition_of f) ≡ nat_lt most_high (height_of (forest_at on forest.now))) }
{
    let f = node_reaches(Kind::Unit, &forest.items, alloc, TOO_HIGH)?;
    Ok(f)
}
