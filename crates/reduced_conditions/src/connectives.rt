//! Formulas made of formulas.

ghost use Rattle.std.specs.Prelude.{◌≡◌, ℕ, Bool, not, ◌&&◌, ◌||◌, ◌↔◌, IsTrue, IfOk, IfSome};
ghost use Rattle.cond_formula.specs.Conditions.{condition_of, value};
ghost use Rattle.reduced_conditions.specs.Literals.{AreTrue};

use crate::conjunctions::{conjoined, joined};
use crate::known::{inside, left_where, outside};
use crate::literals::Literals;
use crate::parts::{are_exclusive, is_implied_with};
use crate::same::{is_always, is_never, is_opposite};
use cond_formula::{Formula, NoMemory};
use std::alloc::Global;

// The formula that is true where both are, if they are negations of conjunctions of literals that differ in one alone.
#[tactic(auto, using(cond_formula::specs::ConditionLaws::formula_kinds))]
fn neither(alloc: Global, a: &Formula, b: &Formula) -> Result<Option<Formula>, NoMemory>
    ensures { IfOk result (λ joined. IfSome joined (λ f. (on : ℕ → Bool) → value on (condition_of f) ≡ (value on (condition_of a.now) && value on (condition_of b.now)))) }
{
    let (Formula::Not(f), Formula::Not(g)) = (a, b) else {
        return Ok(None);
    };
    let literals = Literals::where_true(f);
    let others = Literals::where_true(g);
    let Some(some) = joined(alloc, &literals, &others)? else {
        return Ok(None);
    };
    let negation = Formula::not(alloc, some)?;
    Ok(Some(negation))
}

// The same for conjunctions of these literals.
fn both_conjunctions(
    alloc: Global,
    a: Formula,
    b: Formula,
    literals: &Literals,
    others: &Literals,
) -> Result<Formula, NoMemory>
    requires one { (on : ℕ → Bool) → IsTrue (value on (condition_of a)) ↔ AreTrue on literals.now }
    requires other { (on : ℕ → Bool) → IsTrue (value on (condition_of b)) ↔ AreTrue on others.now }
    ensures { IfOk result (λ f. (on : ℕ → Bool) → value on (condition_of f) ≡ (value on (condition_of a) && value on (condition_of b))) }
{
    if others.include(literals) {
        return Ok(b);
    }
    if literals.include(others) {
        return Ok(a);
    }
    let f = conjoined(alloc, literals, others)?;
    Ok(f)
}

/// The formula that is true where both are.
pub fn both(alloc: Global, a: Formula, b: Formula) -> Result<Formula, NoMemory>
    ensures { IfOk result (λ f. (on : ℕ → Bool) → value on (condition_of f) ≡ (value on (condition_of a) && value on (condition_of b))) }
{
    let literals = Literals::where_true(&a);
    let others = Literals::where_true(&b);
    if literals.are_all && others.are_all {
        let f = both_conjunctions(alloc, a, b, &literals, &others)?;
        return Ok(f);
    }
    if is_implied_with(&a, &b, &others) {
        return Ok(b);
    }
    if is_implied_with(&b, &a, &literals) {
        return Ok(a);
    }
    if are_exclusive(&a, &b, &others) {
        return Ok(Formula::False);
    }
    if let Some(rest) = neither(alloc, &a, &b)? {
        return Ok(rest);
    }
    let here = inside(alloc, a, &b)?;
    let f = Formula::and(alloc, here, b)?;
    Ok(f)
}

/// The formula that is true where both are. They stay, and no more of them is copied than is kept.
pub fn both_of(alloc: Global, a: &Formula, b: &Formula) -> Result<Formula, NoMemory>
    ensures { IfOk result (λ f. (on : ℕ → Bool) → value on (condition_of f) ≡ (value on (condition_of a.now) && value on (condition_of b.now))) }
{
    let literals = Literals::where_true(a);
    let others = Literals::where_true(b);
    if literals.are_all && others.are_all {
        let f = conjoined(alloc, &literals, &others)?;
        return Ok(f);
    }
    if are_exclusive(a, b, &others) {
        return Ok(Formula::False);
    }
    if is_implied_with(a, b, &others) {
        return b.try_clone(alloc);
    }
    if is_implied_with(b, a, &literals) {
        return a.try_clone(alloc);
    }
    if let Some(rest) = neither(alloc, a, b)? {
        return Ok(rest);
    }
    let here = left_where(alloc, a, b, true)?;
    let f = Formula::and(alloc, here, b.try_clone(alloc)?)?;
    Ok(f)
}

// The formula that is true where one of the conjunctions of these literals is.
fn one_conjunction(
    alloc: Global,
    a: Formula,
    b: &Formula,
    literals: &Literals,
    others: &Literals,
) -> Result<Formula, NoMemory>
    requires one { (on : ℕ → Bool) → IsTrue (value on (condition_of a)) ↔ AreTrue on literals.now }
    requires other { (on : ℕ → Bool) → IsTrue (value on (condition_of b.now)) ↔ AreTrue on others.now }
    ensures { IfOk result (λ f. (on : ℕ → Bool) → value on (condition_of f) ≡ (value on (condition_of a) || value on (condition_of b.now))) }
{
    if others.include(literals) {
        return Ok(a);
    }
    if literals.include(others) {
        return b.try_clone(alloc);
    }
    if let Some(rest) = joined(alloc, literals, others)? {
        return Ok(rest);
    }
    let elsewhere = outside(alloc, b, &a)?;
    let f = Formula::or(alloc, a, elsewhere)?;
    Ok(f)
}

/// The formula that is true where one of them is. The second stays, and no more of it is copied than is kept.
pub fn either_of(alloc: Global, a: Formula, b: &Formula) -> Result<Formula, NoMemory>
    ensures { IfOk result (λ f. (on : ℕ → Bool) → value on (condition_of f) ≡ (value on (condition_of a) || value on (condition_of b.now))) }
{
    let literals = Literals::where_true(&a);
    let others = Literals::where_true(b);
    if literals.are_all && others.are_all {
        let f = one_conjunction(alloc, a, b, &literals, &others)?;
        return Ok(f);
    }
    if is_implied_with(&a, b, &others) {
        return Ok(a);
    }
    if is_implied_with(b, &a, &literals) {
        return b.try_clone(alloc);
    }
    if is_opposite(&a, b) {
        return Ok(Formula::True);
    }
    let elsewhere = outside(alloc, b, &a)?;
    if is_always(&elsewhere) {
        return Ok(Formula::True);
    }
    let f = Formula::or(alloc, a, elsewhere)?;
    Ok(f)
}

/// The formula that is true where one of them is.
pub fn either(alloc: Global, a: Formula, b: Formula) -> Result<Formula, NoMemory>
    ensures { IfOk result (λ f. (on : ℕ → Bool) → value on (condition_of f) ≡ (value on (condition_of a) || value on (condition_of b))) }
{
    if is_never(&a) {
        return Ok(b);
    }
    let f = either_of(alloc, a, &b)?;
    Ok(f)
}

// The formula that is true where the first of the conjunctions of these literals is and the second isn't.
fn conjunction_without(
    alloc: Global,
    a: Formula,
    b: &Formula,
    literals: &Literals,
    others: &Literals,
) -> Result<Formula, NoMemory>
    requires one { (on : ℕ → Bool) → IsTrue (value on (condition_of a)) ↔ AreTrue on literals.now }
    requires other { (on : ℕ → Bool) → IsTrue (value on (condition_of b.now)) ↔ AreTrue on others.now }
    ensures { IfOk result (λ f. (on : ℕ → Bool) → value on (condition_of f) ≡ (value on (condition_of a) && not (value on (condition_of b.now)))) }
{
    if literals.contradict(others) {
        return Ok(a);
    }
    if literals.include(others) {
        return Ok(Formula::False);
    }
    let rest = others.minus(literals);
    let more = rest.formula(alloc)?;
    let elsewhere = Formula::not(alloc, more)?;
    let here = both(alloc, a, elsewhere)?;
    Ok(here)
}

/// The formula that is true where the first is and the second isn't.
pub fn without(alloc: Global, a: Formula, b: &Formula) -> Result<Formula, NoMemory>
    ensures { IfOk result (λ f. (on : ℕ → Bool) → value on (condition_of f) ≡ (value on (condition_of a) && not (value on (condition_of b.now)))) }
{
    let literals = Literals::where_true(&a);
    let others = Literals::where_has(b, false);
    if literals.are_all && others.are_all {
        let f = conjoined(alloc, &literals, &others)?;
        return Ok(f);
    }
    let said = Literals::where_true(b);
    if literals.are_all && said.are_all {
        let f = conjunction_without(alloc, a, b, &literals, &said)?;
        return Ok(f);
    }
    if are_exclusive(&a, b, &said) {
        return Ok(a);
    }
    if is_implied_with(b, &a, &literals) {
        return Ok(Formula::False);
    }
    let more = left_where(alloc, b, &a, true)?;
    let elsewhere = Formula::not(alloc, more)?;
    let here = both(alloc, a, elsewhere)?;
    Ok(here)
}
