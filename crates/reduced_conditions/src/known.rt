//! What a condition says where it is known of another that it is true, or that it is false.

ghost use Rattle.std.specs.Prelude.{◌≡◌, ◌&&◌, ℕ, Bool, true, false, IsTrue, IfOk};
ghost use Rattle.cond_formula.specs.Conditions.{condition_of, conditions_of, value, all_true};
ghost use Rattle.reduced_conditions.specs.Literals.{AreTrue};

use crate::literals::Literals;
use crate::parts::is_implied;
use cond_formula::{Formula, NoMemory};
use std::alloc::Global;

// Whether the condition says that the other is false.
#[tactic(auto, using(cond_formula::specs::ConditionLaws::formula_kinds))]
fn is_outside(part: &Formula, other: &Formula) -> bool
    ensures { IsTrue result → (on : ℕ → Bool) → value on (condition_of other.now) ≡ false → IsTrue (value on (condition_of part.now)) }
{
    match part {
        Formula::Not(inner) => is_implied(other, inner),
        _ => false,
    }
}

// Whether the condition is true where the other has the value.
fn follows(part: &Formula, other: &Formula, is_true: bool) -> bool
    ensures { IsTrue result → (on : ℕ → Bool) → value on (condition_of other.now) ≡ is_true → IsTrue (value on (condition_of part.now)) }
{
    if is_true {
        return is_implied(part, other);
    }
    is_outside(part, other)
}

// The same, by the literals that are true there.
fn is_known(part: &Formula, other: &Formula, is_true: bool, literals: &Literals) -> bool
    requires { (on : ℕ → Bool) → value on (condition_of other.now) ≡ is_true → AreTrue on literals.now }
    ensures { IsTrue result → (on : ℕ → Bool) → value on (condition_of other.now) ≡ is_true → IsTrue (value on (condition_of part.now)) }
{
    if literals.show(part, true) {
        return true;
    }
    if literals.are_all {
        return false;
    }
    follows(part, other, is_true)
}

// Both, without the second if it is known to be true.
fn with_part(
    alloc: Global,
    kept: Formula,
    part: &Formula,
    other: &Formula,
    is_true: bool,
    literals: &Literals,
) -> Result<Formula, NoMemory>
    requires { (on : ℕ → Bool) → value on (condition_of other.now) ≡ is_true → AreTrue on literals.now }
    ensures same { IfOk result (λ f. (on : ℕ → Bool) → value on (condition_of other.now) ≡ is_true → value on (condition_of f) ≡ (value on (condition_of kept) && value on (condition_of part.now))) }
    ensures wider { IfOk result (λ f. (on : ℕ → Bool) → IsTrue (value on (condition_of kept) && value on (condition_of part.now)) → IsTrue (value on (condition_of f))) }
{
    if is_known(part, other, is_true, literals) {
        return Ok(kept);
    }
    let f = Formula::and(alloc, kept, part.try_clone(alloc)?)?;
    Ok(f)
}

#[tactic(auto, using(cond_formula::specs::ConditionLaws::formula_kinds))]
fn parts_left(
    alloc: Global,
    parts: &[Formula],
    other: &Formula,
    is_true: bool,
    literals: &Literals,
) -> Result<Formula, NoMemory>
    requires { (on : ℕ → Bool) → value on (condition_of other.now) ≡ is_true → AreTrue on literals.now }
    ensures same { IfOk result (λ f. (on : ℕ → Bool) → value on (condition_of other.now) ≡ is_true → value on (condition_of f) ≡ all_true on (conditions_of parts.now)) }
    ensures wider { IfOk result (λ f. (on : ℕ → Bool) → IsTrue (all_true on (conditions_of parts.now)) → IsTrue (value on (condition_of f))) }
{
    let mut kept = Formula::True;
    for part in parts {
        kept = with_part(alloc, kept, part, other, is_true, literals)?;
    }
    Ok(kept)
}

// A condition that says the same where the other has the value. What it says of the other is left out.
#[tactic(auto, using(cond_formula::specs::ConditionLaws::formula_kinds))]
pub(crate) fn left_where(
    alloc: Global,
    when: &Formula,
    other: &Formula,
    is_true: bool,
) -> Result<Formula, NoMemory>
    ensures same { IfOk result (λ f. (on : ℕ → Bool) → value on (condition_of other.now) ≡ is_true → value on (condition_of f) ≡ value on (condition_of when.now)) }
    ensures wider { IfOk result (λ f. (on : ℕ → Bool) → IsTrue (value on (condition_of when.now)) → IsTrue (value on (condition_of f))) }
{
    let literals = Literals::where_has(other, is_true);
    let said = Literals::where_true(when);
    if said.are_all {
        let rest = said.minus(&literals);
        let f = rest.formula(alloc)?;
        return Ok(f);
    }
    match when {
        Formula::And(parts) => parts_left(alloc, parts, other, is_true, &literals),
        when => when.try_clone(alloc),
    }
}

/// A condition that says the same where the other is false. What it says of the other is left out.
pub fn outside(alloc: Global, when: &Formula, other: &Formula) -> Result<Formula, NoMemory>
    ensures same { IfOk result (λ f. (on : ℕ → Bool) → value on (condition_of other.now) ≡ false → value on (condition_of f) ≡ value on (condition_of when.now)) }
    ensures wider { IfOk result (λ f. (on : ℕ → Bool) → IsTrue (value on (condition_of when.now)) → IsTrue (value on (condition_of f))) }
{
    left_where(alloc, when, other, false)
}

// Whether some of the condition is known where the other is true. It decides on no value: where none is, nothing has to be copied.
fn says_some(other: &Formula, when: &Formula) -> bool {
    let literals = Literals::where_true(other);
    let said = Literals::where_true(when);
    if said.are_all {
        return literals.share(&said);
    }
    match when {
        Formula::And(parts) => parts
            .iter()
            .any(|part| is_known(part, other, true, &literals)),
        _ => false,
    }
}

/// A condition that says the same where the other is true. What the other says already is left out.
#[tactic(auto, using(cond_formula::specs::ConditionLaws::formula_kinds))]
pub(crate) fn inside(alloc: Global, when: Formula, other: &Formula) -> Result<Formula, NoMemory>
    ensures { IfOk result (λ f. (on : ℕ → Bool) → IsTrue (value on (condition_of other.now)) → value on (condition_of f) ≡ value on (condition_of when)) }
{
    if says_some(other, &when) {
        return left_where(alloc, &when, other, true);
    }
    Ok(when)
}
