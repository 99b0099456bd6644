//! What a path says of a formula by the formula's parts.

ghost use Rattle.std.specs.Prelude.{◌≡◌, ℕ, Bool, false, IsTrue};
ghost use Rattle.cond_formula.specs.Conditions.{condition_of, conditions_of, value, all_true, any_true};
ghost use Rattle.reduced_conditions.specs.Literals.{AreTrue};

use cond_formula::Formula;
use reduced_conditions::{Literals, is_same};

fn has(path: &[Formula], f: &Formula) -> bool
    ensures { IsTrue result → (on : ℕ → Bool) → IsTrue (all_true on (conditions_of path.now)) → IsTrue (value on (condition_of f.now)) }
{
    for known in path {
        if is_same(known, f) {
            return true;
        }
    }
    false
}

/// Whether the formula is the negation of the other.
#[tactic(auto, using(cond_formula::specs::ConditionLaws::formula_kinds))]
fn is_negation(known: &Formula, f: &Formula) -> bool
    ensures { IsTrue result → (on : ℕ → Bool) → IsTrue (value on (condition_of known.now)) → value on (condition_of f.now) ≡ false }
{
    match known {
        Formula::Not(inner) => is_same(inner, f),
        _ => false,
    }
}

fn has_negation(path: &[Formula], f: &Formula) -> bool
    ensures { IsTrue result → (on : ℕ → Bool) → IsTrue (all_true on (conditions_of path.now)) → value on (condition_of f.now) ≡ false }
{
    for known in path {
        if is_negation(known, f) {
            return true;
        }
    }
    false
}

// What isn't among the literals of a path is said nowhere there.
fn is_literal(f: &Formula) -> bool {
    match f {
        Formula::Var(_) => true,
        Formula::Not(inner) => matches!(**inner, Formula::Var(_)),
        _ => false,
    }
}

// Whether the path, with these among its literals, shows that the formula is true.
#[cycle(said)]
#[tactic(auto, using(cond_formula::specs::ConditionLaws::formula_kinds))]
pub(crate) fn follows_from(f: &Formula, path: &[Formula], literals: &Literals) -> bool
    requires { (on : ℕ → Bool) → IsTrue (all_true on (conditions_of path.now)) → AreTrue on literals.now }
    ensures { IsTrue result → (on : ℕ → Bool) → IsTrue (all_true on (conditions_of path.now)) → IsTrue (value on (condition_of f.now)) }
{
    if literals.show(f, true) {
        return true;
    }
    if is_literal(f) {
        return false;
    }
    if has(path, f) {
        return true;
    }
    match f {
        Formula::True => true,
        Formula::False => false,
        Formula::Var(_) => false,
        Formula::Not(inner) => is_excluded_by(inner, path, literals),
        Formula::And(parts) => all_follow(parts, path, literals),
        Formula::Or(parts) => some_follows(parts, path, literals),
    }
}

#[cycle(said)]
fn all_follow(parts: &[Formula], path: &[Formula], literals: &Literals) -> bool
    requires { (on : ℕ → Bool) → IsTrue (all_true on (conditions_of path.now)) → AreTrue on literals.now }
    ensures { IsTrue result → (on : ℕ → Bool) → IsTrue (all_true on (conditions_of path.now)) → IsTrue (all_true on (conditions_of parts.now)) }
{
    for part in parts {
        if !follows_from(part, path, literals) {
            return false;
        }
    }
    true
}

#[cycle(said)]
fn some_follows(parts: &[Formula], path: &[Formula], literals: &Literals) -> bool
    requires { (on : ℕ → Bool) → IsTrue (all_true on (conditions_of path.now)) → AreTrue on literals.now }
    ensures { IsTrue result → (on : ℕ → Bool) → IsTrue (all_true on (conditions_of path.now)) → IsTrue (any_true on (conditions_of parts.now)) }
{
    for part in parts {
        if follows_from(part, path, literals) {
            return true;
        }
    }
    false
}

// Whether it shows that the formula is false.
#[cycle(said)]
#[tactic(auto, using(cond_formula::specs::ConditionLaws::formula_kinds))]
pub(crate) fn is_excluded_by(f: &Formula, path: &[Formula], literals: &Literals) -> bool
    requires { (on : ℕ → Bool) → IsTrue (all_true on (conditions_of path.now)) → AreTrue on literals.now }
    ensures { IsTrue result → (on : ℕ → Bool) → IsTrue (all_true on (conditions_of path.now)) → value on (condition_of f.now) ≡ false }
{
    if literals.show(f, false) {
        return true;
    }
    if is_literal(f) {
        return false;
    }
    if has_negation(path, f) {
        return true;
    }
    match f {
        Formula::True => false,
        Formula::False => true,
        Formula::Var(_) => false,
        Formula::Not(inner) => follows_from(inner, path, literals),
        Formula::And(parts) => some_is_excluded(parts, path, literals),
        Formula::Or(parts) => all_are_excluded(parts, path, literals),
    }
}

#[cycle(said)]
fn some_is_excluded(parts: &[Formula], path: &[Formula], literals: &Literals) -> bool
    requires { (on : ℕ → Bool) → IsTrue (all_true on (conditions_of path.now)) → AreTrue on literals.now }
    ensures { IsTrue result → (on : ℕ → Bool) → IsTrue (all_true on (conditions_of path.now)) → all_true on (conditions_of parts.now) ≡ false }
{
    for part in parts {
        if is_excluded_by(part, path, literals) {
            return true;
        }
    }
    false
}

#[cycle(said)]
fn all_are_excluded(parts: &[Formula], path: &[Formula], literals: &Literals) -> bool
    requires { (on : ℕ → Bool) → IsTrue (all_true on (conditions_of path.now)) → AreTrue on literals.now }
    ensures { IsTrue result → (on : ℕ → Bool) → IsTrue (all_true on (conditions_of path.now)) → any_true on (conditions_of parts.now) ≡ false }
{
    for part in parts {
        if !is_excluded_by(part, path, literals) {
            return false;
        }
    }
    true
}

/// Whether the path shows that the formula is true.
pub fn follows(f: &Formula, path: &[Formula]) -> bool
    ensures { IsTrue result → (on : ℕ → Bool) → IsTrue (all_true on (conditions_of path.now)) → IsTrue (value on (condition_of f.now)) }
{
    let literals = Literals::of_all(path);
    follows_from(f, path, &literals)
}

/// Whether the path shows that the formula is false.
pub fn is_excluded(f: &Formula, path: &[Formula]) -> bool
    ensures { IsTrue result → (on : ℕ → Bool) → IsTrue (all_true on (conditions_of path.now)) → value on (condition_of f.now) ≡ false }
{
    let literals = Literals::of_all(path);
    is_excluded_by(f, path, &literals)
}
