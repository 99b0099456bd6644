//! By how much nodes are higher than the highest of their parts.

ghost use Rattle.std.specs.Prelude.{◌≡◌, ℕ, ◌+◌, Bool, nat_lt, if◌then◌else◌, IfOk};
ghost use Rattle.cond_formula.specs.Conditions.{condition_of, value};
ghost use Rattle.c_tree.specs.Trees.{PlainTrees};
ghost use Rattle.c_tree.specs.Heights.{count_stars, height_over};
ghost use Rattle.choice_trees.specs.ChoiceTrees.{plain_item, plain_branches, plain_choices, item_at, branch_at, parts_at};
ghost use Rattle.forest_heights.specs.Levels.{Tells, counts, some_counts, counted, further};

use crate::alternatives::{known, with_alternative};
use c_tree::{Kind, Terminal, terminal};
use choice_trees::{Choice, Item};
use cond_formula::{Formula, NoMemory};
use reduced_conditions::{both, either, is_never, without};
use std::alloc::Global;

/// By how much a node of this kind is higher whatever its parts are.
pub fn sure_levels(kind: Kind) -> usize
    ensures { (parts : PlainTrees) (highest : ℕ) → height_over kind parts highest ≡ result + further kind parts + highest }
{
    match kind {
        Kind::Absent
        | Kind::Members
        | Kind::Specifiers
        | Kind::Declarators
        | Kind::Declarator
        | Kind::Parameters
        | Kind::Initialisers
        | Kind::Items
        | Kind::Else
        | Kind::ForStart
        | Kind::Arguments
        | Kind::Texts => 0,
        _ => 1,
    }
}

/// Whether the item is counted: each is, or only the stars are.
#[tactic(auto, using(choice_trees::specs::ItemLaws::item_kinds))]
fn is_counted(only_stars: bool, item: &Item) -> bool
    ensures { (on : ℕ → Bool) → result ≡ counts only_stars (item_at on (plain_item item.now)) }
{
    if !only_stars {
        return true;
    }
    match item {
        Item::Leaf(_, token) => terminal(token).is(Terminal::Star),
        Item::Node(..) => false,
    }
}

/// Where the alternative that holds is counted.
fn choice_counts(
    only_stars: bool,
    choice: &Choice<Item>,
    alloc: Global,
) -> Result<Formula, NoMemory>
    ensures { IfOk result (λ f. (on : ℕ → Bool) → value on (condition_of f) ≡ some_counts only_stars (branch_at on (plain_branches choice.now.branches.items))) }
{
    let mut found = Formula::False;
    let mut left = Formula::True;
    for (when, item) in &choice.branches {
        let here = known(is_counted(only_stars, item));
        found = with_alternative(alloc, found, &left, when, here)?;
        left = without(alloc, left, when)?;
    }
    Ok(found)
}

/// One level more under this condition: a level is reached where it was, or where the one below it was and the condition holds.
fn one_more(alloc: Global, levels: &[Formula], when: &Formula) -> Result<Vec<Formula>, NoMemory>
    ensures { IfOk result (λ longer. (on : ℕ → Bool) (count : ℕ) → Tells on levels.now count
        → Tells on longer.items ((if value on (condition_of when.now) then 1 else 0) + count)) }
{
    let mut longer = Vec::with_capacity(alloc, levels.len())?;
    let mut below = Formula::True;
    for level in levels {
        let reached = both(alloc, below, when.try_clone(alloc)?)?;
        longer.push(either(alloc, level.try_clone(alloc)?, reached)?)?;
        below = level.try_clone(alloc)?;
    }
    longer.push(both(alloc, below, when.try_clone(alloc)?)?)?;
    Ok(longer)
}

/// The levels with one more under this condition, or as they are where that never holds.
fn with_level(alloc: Global, levels: Vec<Formula>, when: &Formula) -> Result<Vec<Formula>, NoMemory>
    ensures { IfOk result (λ longer. (on : ℕ → Bool) (count : ℕ) → Tells on levels.items count
        → Tells on longer.items ((if value on (condition_of when.now) then 1 else 0) + count)) }
{
    if is_never(when) {
        return Ok(levels);
    }
    let longer = one_more(alloc, &levels, when)?;
    Ok(longer)
}

/// How many parts are counted, told by conditions.
fn part_count(
    only_stars: bool,
    parts: &[Choice<Item>],
    alloc: Global,
) -> Result<Vec<Formula>, NoMemory>
    ensures { IfOk result (λ levels. (on : ℕ → Bool) → Tells on levels.items (counted on only_stars (plain_choices parts.now))) }
{
    let mut levels = Vec::new(alloc);
    for part in parts {
        let when = choice_counts(only_stars, part, alloc)?;
        levels = with_level(alloc, levels, &when)?;
    }
    Ok(levels)
}

/// One level where the number that is told is two at least.
fn second_level(alloc: Global, words: &[Formula]) -> Result<Vec<Formula>, NoMemory>
    ensures { IfOk result (λ levels. (on : ℕ → Bool) (count : ℕ) → Tells on words.now count → Tells on levels.items (if nat_lt 1 count then 1 else 0)) }
{
    match words.get(1) {
        Some(level) => {
            let mut levels = Vec::new(alloc);
            levels.push(level.try_clone(alloc)?)?;
            Ok(levels)
        }
        None => Ok(Vec::new(alloc)),
    }
}

/// One level where there are several words.
fn word_levels(parts: &[Choice<Item>], alloc: Global) -> Result<Vec<Formula>, NoMemory>
    ensures { IfOk result (λ levels. (on : ℕ → Bool) → Tells on levels.items (further Kind.Specifiers (parts_at on Kind.Specifiers 0 (plain_choices parts.now)))) }
{
    let words = part_count(false, parts, alloc)?;
    let levels = second_level(alloc, &words)?;
    Ok(levels)
}

/// A level for each star.
fn star_levels(parts: &[Choice<Item>], alloc: Global) -> Result<Vec<Formula>, NoMemory>
    ensures { IfOk result (λ levels. (on : ℕ → Bool) (kind : Kind) → Tells on levels.items (count_stars (parts_at on kind 0 (plain_choices parts.now)))) }
{
    let levels = part_count(true, parts, alloc)?;
    Ok(levels)
}

/// By how much a node of this kind is higher for the parts that a configuration sees, told by conditions.
pub fn further_levels(
    kind: Kind,
    parts: &[Choice<Item>],
    alloc: Global,
) -> Result<Vec<Formula>, NoMemory>
    ensures { IfOk result (λ levels. (on : ℕ → Bool) → Tells on levels.items (further kind (parts_at on kind 0 (plain_choices parts.now)))) }
{
    match kind {
        Kind::Specifiers => word_levels(parts, alloc),
        Kind::Declarator | Kind::ArrayDeclarator | Kind::FunctionDeclarator => {
            star_levels(parts, alloc)
        }
        _ => Ok(Vec::new(alloc)),
    }
}
