//! The connectives of constraints, as formulas.
ghost use Rattle.std.specs.Prelude.{◌≡◌, ℕ, Bool, not, ◌&&◌, ◌||◌, if◌then◌else◌, All, IfOk, IfSome, option_map, map, length, ◌≤◌};
ghost use Rattle.feature_model.specs.Reading.{joined_sides, implied};
ghost use Rattle.feature_model.specs.Trees.{feature_number, on_feature};
ghost use Rattle.feature_model.specs.ReaderView.{value_in, chained};
ghost use Rattle.feature_model.specs.Bounds.{IsBelow};

use crate::tokens::feature_number;
use cond_formula::{Formula, NoMemory};
use std::alloc::Global;
use std::collections::VecDeque;

/// The formula of a name; false for one that no feature has.
pub fn named(features: &[String], name: &[u8]) -> Formula
    requires { length features.now ≤ 128 }
    ensures value { (on : ℕ → Bool) → value_in on result ≡ on_feature on (feature_number features.now name.now) }
    ensures below { IsBelow (length features.now) result }
{
    match feature_number(features, name) {
        Some(number) => Formula::Var(number as u8),
        None => Formula::False,
    }
}

pub fn inverted(alloc: Global, inverted: bool, a: Formula) -> Result<Formula, NoMemory>
    ensures value { (on : ℕ → Bool) → IfOk result (λ f. value_in on f ≡ (if inverted then not (value_in on a) else value_in on a)) }
    ensures below { (count : ℕ) → IsBelow count a → IfOk result (IsBelow count) }
{
    if inverted {
        let inverse = Formula::not(alloc, a)?;
        return Ok(inverse);
    }
    Ok(a)
}

fn leads_to(alloc: Global, a: Formula, b: Formula) -> Result<Formula, NoMemory>
    ensures value { (on : ℕ → Bool) → IfOk result (λ f. value_in on f ≡ (not (value_in on a) || value_in on b)) }
    ensures below { (count : ℕ) → IsBelow count a → IsBelow count b → IfOk result (IsBelow count) }
{
    let inverse = Formula::not(alloc, a)?;
    let formula = Formula::or(alloc, inverse, b)?;
    Ok(formula)
}

fn same_as(alloc: Global, a: Formula, b: Formula) -> Result<Formula, NoMemory>
    ensures value { (on : ℕ → Bool) → IfOk result (λ f. value_in on f ≡ (if value_in on a then value_in on b else not (value_in on b))) }
    ensures below { (count : ℕ) → IsBelow count a → IsBelow count b → IfOk result (IsBelow count) }
{
    let a_copy = a.try_clone(alloc)?;
    let b_copy = b.try_clone(alloc)?;
    let forth = leads_to(alloc, a, b)?;
    let back = leads_to(alloc, b_copy, a_copy)?;
    let formula = Formula::and(alloc, forth, back)?;
    Ok(formula)
}

pub fn joined_by_and(
    alloc: Global,
    left: Option<Formula>,
    right: Formula,
) -> Result<Formula, NoMemory>
    ensures value { (on : ℕ → Bool) → IfOk result (λ f. value_in on f ≡ joined_sides (λ a b. a && b) (option_map (value_in on) left) (value_in on right)) }
    ensures below { (count : ℕ) → IfSome left (IsBelow count) → IsBelow count right → IfOk result (IsBelow count) }
{
    match left {
        None => Ok(right),
        Some(left) => {
            let formula = Formula::and(alloc, left, right)?;
            Ok(formula)
        }
    }
}

pub fn joined_by_or(
    alloc: Global,
    left: Option<Formula>,
    right: Formula,
) -> Result<Formula, NoMemory>
    ensures value { (on : ℕ → Bool) → IfOk result (λ f. value_in on f ≡ joined_sides (λ a b. a || b) (option_map (value_in on) left) (value_in on right)) }
    ensures below { (count : ℕ) → IfSome left (IsBelow count) → IsBelow count right → IfOk result (IsBelow count) }
{
    match left {
        None => Ok(right),
        Some(left) => {
            let formula = Formula::or(alloc, left, right)?;
            Ok(formula)
        }
    }
}

/// A chain of `<->`. It has one value however its operands are grouped, and `same_as` copies both sides, so they are joined
/// as a balanced tree: its size grows with the square of their number.
pub fn chained_by_equals(
    alloc: Global,
    mut operands: VecDeque<Formula>,
) -> Result<Formula, NoMemory>
    ensures value { (on : ℕ → Bool) → IfOk result (λ f. value_in on f ≡ chained (map (value_in on) operands.items)) }
    ensures below { (count : ℕ) → All (IsBelow count) operands.items → IfOk result (IsBelow count) }
{
    while let Some(first) = operands.pop_front() {
        match operands.pop_front() {
            None => return Ok(first),
            Some(second) => {
                let pair = same_as(alloc, first, second)?;
                operands.push_back(pair)?;
            }
        }
    }
    Ok(Formula::True)
}

/// Each premise implies what follows it.
pub fn implied(
    alloc: Global,
    mut premises: Vec<Formula>,
    conclusion: Formula,
) -> Result<Formula, NoMemory>
    ensures value { (on : ℕ → Bool) → IfOk result (λ f. value_in on f ≡ implied (λ a b. not a || b) (map (value_in on) premises.items) (value_in on conclusion)) }
    ensures below { (count : ℕ) → All (IsBelow count) premises.items → IsBelow count conclusion → IfOk result (IsBelow count) }
{
    let mut formula = conclusion;
    while let Some(premise) = premises.pop() {
        formula = leads_to(alloc, premise, formula)?;
    }
    Ok(formula)
}
