//! What of formulas a path doesn't say already.

ghost use Rattle.std.specs.Prelude.{◌≡◌, ℕ, ◌+◌, ◌<◌, Bool, ◌&&◌, ◌||◌, length, drop, IsTrue, IfOk};
ghost use Rattle.cond_formula.specs.Conditions.{condition_of, conditions_of, value, all_true, any_true};
ghost use Rattle.reduced_conditions.specs.Literals.{AreTrue};

use crate::said::{follows, follows_from, is_excluded_by};
use cond_formula::{Formula, NoMemory};
use reduced_conditions::Literals;
use std::alloc::Global;

/// With the part, if the path doesn't show it to be true.
fn with_conjunct(
    alloc: Global,
    left: Formula,
    part: &Formula,
    path: &[Formula],
    literals: &Literals,
) -> Result<Formula, NoMemory>
    requires { (on : ℕ → Bool) → IsTrue (all_true on (conditions_of path.now)) → AreTrue on literals.now }
    ensures { IfOk result (λ f. (on : ℕ → Bool) → IsTrue (all_true on (conditions_of path.now)) →
        value on (condition_of f) ≡ (value on (condition_of left) && value on (condition_of part.now))) }
{
    if follows_from(part, path, literals) {
        return Ok(left);
    }
    let both = Formula::and(alloc, left, part.try_clone(alloc)?)?;
    Ok(both)
}

/// With the part, if the path doesn't show it to be false.
fn with_disjunct(
    alloc: Global,
    left: Formula,
    part: &Formula,
    path: &[Formula],
    literals: &Literals,
) -> Result<Formula, NoMemory>
    requires { (on : ℕ → Bool) → IsTrue (all_true on (conditions_of path.now)) → AreTrue on literals.now }
    ensures { IfOk result (λ f. (on : ℕ → Bool) → IsTrue (all_true on (conditions_of path.now)) →
        value on (condition_of f) ≡ (value on (condition_of left) || value on (condition_of part.now))) }
{
    if is_excluded_by(part, path, literals) {
        return Ok(left);
    }
    let either = Formula::or(alloc, left, part.try_clone(alloc)?)?;
    Ok(either)
}

#[tactic(auto, using(cond_formula::specs::ConditionLaws::formula_kinds))]
fn left_of_all(
    alloc: Global,
    parts: &[Formula],
    path: &[Formula],
    literals: &Literals,
) -> Result<Formula, NoMemory>
    requires { (on : ℕ → Bool) → IsTrue (all_true on (conditions_of path.now)) → AreTrue on literals.now }
    ensures { IfOk result (λ f. (on : ℕ → Bool) → IsTrue (all_true on (conditions_of path.now)) →
        value on (condition_of f) ≡ all_true on (conditions_of parts.now)) }
{
    let mut left = Formula::True;
    for part in parts {
        left = with_conjunct(alloc, left, part, path, literals)?;
    }
    Ok(left)
}

#[tactic(auto, using(cond_formula::specs::ConditionLaws::formula_kinds))]
pub(crate) fn left_of_some(
    alloc: Global,
    parts: &[Formula],
    path: &[Formula],
    literals: &Literals,
) -> Result<Formula, NoMemory>
    requires { (on : ℕ → Bool) → IsTrue (all_true on (conditions_of path.now)) → AreTrue on literals.now }
    ensures { IfOk result (λ f. (on : ℕ → Bool) → IsTrue (all_true on (conditions_of path.now)) →
        value on (condition_of f) ≡ any_true on (conditions_of parts.now)) }
{
    let mut left = Formula::False;
    for part in parts {
        left = with_disjunct(alloc, left, part, path, literals)?;
    }
    Ok(left)
}

/// What of the formula the path, with these among its literals, doesn't say.
#[tactic(auto, using(cond_formula::specs::ConditionLaws::formula_kinds))]
pub(crate) fn left_on(
    alloc: Global,
    f: &Formula,
    path: &[Formula],
    literals: &Literals,
) -> Result<Formula, NoMemory>
    requires { (on : ℕ → Bool) → IsTrue (all_true on (conditions_of path.now)) → AreTrue on literals.now }
    ensures { IfOk result (λ left. (on : ℕ → Bool) → IsTrue (all_true on (conditions_of path.now)) →
        value on (condition_of left) ≡ value on (condition_of f.now)) }
{
    if follows_from(f, path, literals) {
        return Ok(Formula::True);
    }
    if let Some(left) = literals.unsaid(alloc, f)? {
        return Ok(left);
    }
    match f {
        Formula::And(parts) => left_of_all(alloc, parts, path, literals),
        Formula::Or(parts) => left_of_some(alloc, parts, path, literals),
        other => other.try_clone(alloc),
    }
}

/// What of the formula the path doesn't say: a formula that is true exactly where it is, on the path.
pub fn left_of(alloc: Global, f: &Formula, path: &[Formula]) -> Result<Formula, NoMemory>
    ensures { IfOk result (λ left. (on : ℕ → Bool) → IsTrue (all_true on (conditions_of path.now)) →
        value on (condition_of left) ≡ value on (condition_of f.now)) }
{
    let literals = Literals::of_all(path);
    left_on(alloc, f, path, &literals)
}

/// Whether what stands behind a place of the path shows what stands there.
fn is_said_behind(path: &[Formula], place: usize) -> bool
    requires { place < length path.now }
    ensures { IsTrue result → (on : ℕ → Bool) → IsTrue (all_true on (conditions_of (drop (place + 1) path.now)))
        → IsTrue (all_true on (conditions_of (drop place path.now))) }
{
    follows(&path[place], &path[place + 1..])
}

/// The formula that is true where all of the path are.
#[tactic(auto, using(cond_formula::specs::ConditionLaws::formula_kinds))]
pub fn conjoined(alloc: Global, path: &[Formula]) -> Result<Formula, NoMemory>
    ensures { IfOk result (λ f. (on : ℕ → Bool) → value on (condition_of f) ≡ all_true on (conditions_of path.now)) }
{
    let mut all = Formula::True;
    for (place, known) in path.iter().enumerate() {
        if !is_said_behind(path, place) {
            all = Formula::and(alloc, all, known.try_clone(alloc)?)?;
        }
    }
    Ok(all)
}
