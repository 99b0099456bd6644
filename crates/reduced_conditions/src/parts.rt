//! What the parts of a formula say of another.

ghost use Rattle.std.specs.Prelude.{◌≡◌, ℕ, Bool, false, ◌&&◌, IsTrue};
ghost use Rattle.cond_formula.specs.Conditions.{condition_of, conditions_of, value, all_true, any_true};
ghost use Rattle.reduced_conditions.specs.Literals.{AreTrue};

use crate::literals::Literals;
use crate::same::{is_never, is_opposite, is_same};
use cond_formula::Formula;

fn has_part(parts: &[Formula], f: &Formula) -> bool
    ensures { IsTrue result → (on : ℕ → Bool) → IsTrue (all_true on (conditions_of parts.now)) → IsTrue (value on (condition_of f.now)) }
{
    for part in parts {
        if is_same(part, f) {
            return true;
        }
    }
    false
}

fn has_opposite(parts: &[Formula], f: &Formula) -> bool
    ensures { IsTrue result → (on : ℕ → Bool) → IsTrue (all_true on (conditions_of parts.now)) → value on (condition_of f.now) ≡ false }
{
    for part in parts {
        if is_opposite(part, f) {
            return true;
        }
    }
    false
}

// Whether the first formula is written as the second, or as a conjunction with that among its parts.
#[tactic(auto, using(cond_formula::specs::ConditionLaws::formula_kinds))]
fn says(a: &Formula, b: &Formula) -> bool
    ensures { IsTrue result → (on : ℕ → Bool) → IsTrue (value on (condition_of a.now)) → IsTrue (value on (condition_of b.now)) }
{
    if is_same(a, b) {
        return true;
    }
    if let Formula::And(parts) = a {
        return has_part(parts, b);
    }
    false
}

// The same, by the literals that are true where the first formula is.
fn says_part(a: &Formula, literals: &Literals, part: &Formula) -> bool
    requires { (on : ℕ → Bool) → IsTrue (value on (condition_of a.now)) → AreTrue on literals.now }
    ensures { IsTrue result → (on : ℕ → Bool) → IsTrue (value on (condition_of a.now)) → IsTrue (value on (condition_of part.now)) }
{
    if literals.show(part, true) {
        return true;
    }
    if literals.are_all {
        return false;
    }
    says(a, part)
}

fn says_one(a: &Formula, literals: &Literals, parts: &[Formula]) -> bool
    requires { (on : ℕ → Bool) → IsTrue (value on (condition_of a.now)) → AreTrue on literals.now }
    ensures { IsTrue result → (on : ℕ → Bool) → IsTrue (value on (condition_of a.now)) → IsTrue (any_true on (conditions_of parts.now)) }
{
    for part in parts {
        if says_part(a, literals, part) {
            return true;
        }
    }
    false
}

// Whether a part of the first conjunction is the opposite of one of the second. The last part, which tells a branch of a chain
// from the others, comes first.
fn have_opposite_parts(parts: &[Formula], others: &[Formula]) -> bool
    ensures { IsTrue result → (on : ℕ → Bool) → IsTrue (all_true on (conditions_of parts.now)) → all_true on (conditions_of others.now) ≡ false }
{
    let count = parts.len();
    for i in 0..count {
        if has_opposite(others, &parts[count - 1 - i]) {
            return true;
        }
    }
    false
}

/// Whether the parts of the first formula show that the second is false wherever the first is true.
#[tactic(auto, using(cond_formula::specs::ConditionLaws::formula_kinds))]
fn rules_out(a: &Formula, b: &Formula) -> bool
    ensures { IsTrue result → (on : ℕ → Bool) → IsTrue (value on (condition_of a.now)) → value on (condition_of b.now) ≡ false }
{
    match (a, b) {
        (Formula::And(parts), Formula::And(others)) => have_opposite_parts(parts, others),
        (Formula::And(parts), _) => has_opposite(parts, b),
        _ => is_opposite(a, b),
    }
}

fn are_conjunctions(a: &Formula, b: &Formula) -> bool {
    matches!((a, b), (Formula::And(_), Formula::And(_)))
}

// Whether the parts of the formulas show that they are nowhere both true.
fn have_opposites(a: &Formula, b: &Formula) -> bool
    ensures { IsTrue result → (on : ℕ → Bool) → (value on (condition_of a.now) && value on (condition_of b.now)) ≡ false }
{
    if rules_out(a, b) {
        return true;
    }
    if are_conjunctions(a, b) {
        return false;
    }
    rules_out(b, a)
}

// The same, by the literals that are true where the first formula is first.
fn is_ruled_out(a: &Formula, b: &Formula) -> bool
    ensures { IsTrue result → (on : ℕ → Bool) → (value on (condition_of a.now) && value on (condition_of b.now)) ≡ false }
{
    let literals = Literals::where_true(a);
    if literals.show(b, false) {
        return true;
    }
    if literals.are_all {
        return false;
    }
    have_opposites(a, b)
}

// The same, by the literals that are true where the second formula is first.
fn are_apart(a: &Formula, b: &Formula, literals: &Literals) -> bool
    requires { (on : ℕ → Bool) → IsTrue (value on (condition_of b.now)) → AreTrue on literals.now }
    ensures { IsTrue result → (on : ℕ → Bool) → (value on (condition_of a.now) && value on (condition_of b.now)) ≡ false }
{
    if literals.show(a, false) {
        return true;
    }
    if literals.are_all {
        return false;
    }
    is_ruled_out(a, b)
}

fn all_are_apart(parts: &[Formula], f: &Formula, literals: &Literals) -> bool
    requires { (on : ℕ → Bool) → IsTrue (value on (condition_of f.now)) → AreTrue on literals.now }
    ensures { IsTrue result → (on : ℕ → Bool) → (any_true on (conditions_of parts.now) && value on (condition_of f.now)) ≡ false }
{
    for part in parts {
        if !are_apart(part, f, literals) {
            return false;
        }
    }
    true
}

// Whether the parts of the formulas show that they are nowhere both true. The literals are true where the second is.
#[tactic(auto, using(cond_formula::specs::ConditionLaws::formula_kinds))]
pub(crate) fn are_exclusive(a: &Formula, b: &Formula, literals: &Literals) -> bool
    requires { (on : ℕ → Bool) → IsTrue (value on (condition_of b.now)) → AreTrue on literals.now }
    ensures { IsTrue result → (on : ℕ → Bool) → (value on (condition_of a.now) && value on (condition_of b.now)) ≡ false }
{
    if let Formula::Or(parts) = a {
        return all_are_apart(parts, b, literals);
    }
    if let Formula::Or(parts) = b {
        let literals = Literals::where_true(a);
        return all_are_apart(parts, a, &literals);
    }
    are_apart(a, b, literals)
}

// Whether the parts of the formulas show that the first is true wherever the second is. The literals are true where the second is.
#[tactic(auto, using(cond_formula::specs::ConditionLaws::formula_kinds))]
pub(crate) fn is_implied_with(a: &Formula, b: &Formula, literals: &Literals) -> bool
    requires { (on : ℕ → Bool) → IsTrue (value on (condition_of b.now)) → AreTrue on literals.now }
    ensures { IsTrue result → (on : ℕ → Bool) → IsTrue (value on (condition_of b.now)) → IsTrue (value on (condition_of a.now)) }
{
    if is_never(b) || says_part(b, literals, a) {
        return true;
    }
    match a {
        Formula::Or(parts) => says_one(b, literals, parts),
        Formula::Not(inner) => are_exclusive(inner, b, literals),
        _ => false,
    }
}

/// Whether the parts of the formulas show that the first is true wherever the second is.
pub fn is_implied(a: &Formula, b: &Formula) -> bool
    ensures { IsTrue result → (on : ℕ → Bool) → IsTrue (value on (condition_of b.now)) → IsTrue (value on (condition_of a.now)) }
{
    is_implied_with(a, b, &Literals::where_true(b))
}
