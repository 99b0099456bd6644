//! The parts of a node that has begun.

ghost use Rattle.std.specs.Prelude.{◌≡◌, ℕ, Bool, true, false, not, ◌||◌, IsTrue, IfOk, Some, None, if◌then◌else◌};
ghost use Rattle.cond_formula.specs.Conditions.{condition_of, conditions_of, value, all_true, any_true};
ghost use Rattle.c_text.specs.Token.{plain_token};
ghost use Rattle.choice_trees.specs.ChoiceTrees.{plain_item, plain_branches};
ghost use Rattle.choice_states.specs.Seen.{token_seen, nothing_seen, seen_at, branch_seen, choice_seen, seen_in};
ghost use Rattle.choice_states.specs.Parts.{is_empty, is_there, first_of, values};

use c_text::Token;
use c_tree::Kind;
use choice_trees::{Choice, Item};
use cond_formula::{Formula, NoMemory};
use path_conditions::{conjoined, follows, left_of};
use reduced_conditions::{both, is_same};
use std::alloc::Global;

/// What stands for a part that is left out.
#[tactic(auto, using(choice_trees::specs::ItemLaws::item_kinds))]
pub(crate) fn nothing(alloc: Global) -> Item
    ensures { (on : ℕ → Bool) → seen_at on (plain_item result) ≡ nothing_seen }
{
    Item::Node(Kind::Absent, Vec::new(alloc))
}

/// A token as a part.
#[tactic(auto, using(choice_trees::specs::ItemLaws::item_kinds))]
pub fn leaf_of(alloc: Global, number: u32, token: &Token) -> Result<Item, NoMemory>
    ensures { IfOk result (λ item. (on : ℕ → Bool) → seen_at on (plain_item item) ≡ token_seen (Some number) (plain_token token.now)) }
{
    Ok(Item::Leaf(number, token.try_clone(alloc)?))
}

/// A part with one alternative.
#[tactic(auto, using(cond_formula::specs::ConditionLaws::formula_kinds))]
pub fn certain(alloc: Global, item: Item) -> Result<Choice<Item>, NoMemory>
    ensures { IfOk result (λ part. (on : ℕ → Bool) → choice_seen on part ≡ Some (seen_at on (plain_item item))) }
{
    let mut branches = Vec::new(alloc);
    branches.push((Formula::True, item))?;
    Ok(Choice { branches })
}

/// The condition, only where all of these formulas are true.
fn condition_here(alloc: Global, here: &[Formula], when: Formula) -> Result<Formula, NoMemory>
    ensures { IfOk result (λ f. (on : ℕ → Bool) → value on (condition_of f)
        ≡ (if all_true on (conditions_of here.now) then value on (condition_of when) else false)) }
{
    let rest = left_of(alloc, &when, here)?;
    let all = both(alloc, conjoined(alloc, here)?, rest)?;
    Ok(all)
}

/// The alternatives where all of these formulas are true.
pub(crate) fn restricted(
    alloc: Global,
    here: &[Formula],
    part: Choice<Item>,
) -> Result<Choice<Item>, NoMemory>
    ensures { IfOk result (λ restricted. (on : ℕ → Bool) → choice_seen on restricted
        ≡ (if all_true on (conditions_of here.now) then choice_seen on part else None)) }
{
    let mut branches = Vec::with_capacity(alloc, part.branches.len())?;
    for (when, item) in part.branches {
        let condition = condition_here(alloc, here, when)?;
        branches.push((condition, item))?;
    }
    Ok(Choice { branches })
}

/// All alternatives for some parts as those for one.
pub(crate) fn as_one(alloc: Global, parts: Vec<Choice<Item>>) -> Result<Choice<Item>, NoMemory>
    ensures { IfOk result (λ part. (on : ℕ → Bool) → choice_seen on part ≡ first_of (values (seen_in on parts.items))) }
{
    let mut branches = Vec::new(alloc);
    for part in parts {
        let Choice { branches: mut more } = part;
        branches.append(&mut more)?;
    }
    Ok(Choice { branches })
}

/// Whether the formula is the last of some.
fn is_last(when: &Formula, parts: &[Formula]) -> bool
    ensures { IsTrue result → (on : ℕ → Bool) → IsTrue (value on (condition_of when.now)) → IsTrue (any_true on (conditions_of parts.now)) }
{
    if parts.is_empty() {
        return false;
    }
    is_same(&parts[parts.len() - 1], when)
}

/// Whether the formula is the last that was put into the other.
#[tactic(auto, using(cond_formula::specs::ConditionLaws::formula_kinds))]
fn is_last_of(when: &Formula, some: &Formula) -> bool
    ensures { IsTrue result → (on : ℕ → Bool) → IsTrue (value on (condition_of when.now)) → IsTrue (value on (condition_of some.now)) }
{
    match some {
        Formula::Or(parts) => is_last(when, parts),
        some => is_same(some, when),
    }
}

/// Where either is true.
fn with_condition(alloc: Global, some: Formula, when: &Formula) -> Result<Formula, NoMemory>
    ensures { IfOk result (λ f. (on : ℕ → Bool) → value on (condition_of f) ≡ (value on (condition_of some) || value on (condition_of when.now))) }
{
    if is_last_of(when, &some) {
        return Ok(some);
    }
    let either = Formula::or(alloc, some, when.try_clone(alloc)?)?;
    Ok(either)
}

/// Where the formula is true or one of the alternatives holds.
fn with_conditions(
    alloc: Global,
    some: Formula,
    branches: &[(Formula, Item)],
) -> Result<Formula, NoMemory>
    ensures { IfOk result (λ f. (on : ℕ → Bool) → value on (condition_of f)
        ≡ (value on (condition_of some) || is_there (branch_seen on (plain_branches branches.now)))) }
{
    let mut all = some;
    for (when, _) in branches {
        all = with_condition(alloc, all, when)?;
    }
    Ok(all)
}

/// Whether one of the alternatives holds on the path.
fn one_holds(path: &[Formula], branches: &[(Formula, Item)]) -> bool
    ensures { IsTrue result → (on : ℕ → Bool) → IsTrue (all_true on (conditions_of path.now)) → IsTrue (is_there (branch_seen on (plain_branches branches.now))) }
{
    for (when, _) in branches {
        if follows(when, path) {
            return true;
        }
    }
    false
}

/// Whether a part is there on the path.
fn one_is_there(path: &[Formula], parts: &[Choice<Item>]) -> bool
    ensures { IsTrue result → (on : ℕ → Bool) → IsTrue (all_true on (conditions_of path.now)) → is_empty (values (seen_in on parts.now)) ≡ false }
{
    for part in parts {
        if one_holds(path, &part.branches) {
            return true;
        }
    }
    false
}

/// Where a part is there.
#[tactic(auto, using(cond_formula::specs::ConditionLaws::formula_kinds))]
fn somewhere(alloc: Global, parts: &[Choice<Item>]) -> Result<Formula, NoMemory>
    ensures { IfOk result (λ f. (on : ℕ → Bool) → value on (condition_of f) ≡ not (is_empty (values (seen_in on parts.now)))) }
{
    let mut some = Formula::False;
    for part in parts {
        some = with_conditions(alloc, some, &part.branches)?;
    }
    Ok(some)
}

/// The condition under which some part is there, on the path.
#[tactic(auto, using(cond_formula::specs::ConditionLaws::formula_kinds))]
pub fn some_are_there(
    alloc: Global,
    path: &[Formula],
    parts: &[Choice<Item>],
) -> Result<Formula, NoMemory>
    ensures { IfOk result (λ f. (on : ℕ → Bool) → IsTrue (all_true on (conditions_of path.now))
        → value on (condition_of f) ≡ not (is_empty (values (seen_in on parts.now)))) }
{
    if one_is_there(path, parts) {
        return Ok(Formula::True);
    }
    let some = somewhere(alloc, parts)?;
    Ok(some)
}
