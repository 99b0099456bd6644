//! Formulas that are written alike.

ghost use Rattle.std.specs.Prelude.{◌≡◌, ℕ, Bool, true, false, not, map, IsTrue};
ghost use Rattle.cond_formula.specs.Conditions.{condition_of, value};

use cond_formula::Formula;

/// Whether the formulas are the same, part by part.
#[cycle(same)]
#[tactic(auto, using(cond_formula::specs::ConditionLaws::formula_kinds))]
pub fn is_same(a: &Formula, b: &Formula) -> bool
    ensures { IsTrue result → condition_of a.now ≡ condition_of b.now }
{
    match (a, b) {
        (Formula::True, Formula::True) => true,
        (Formula::False, Formula::False) => true,
        (Formula::Var(feature), Formula::Var(other)) => *feature == *other,
        (Formula::Not(inner), Formula::Not(other)) => is_same(inner, other),
        (Formula::And(parts), Formula::And(others)) => are_same(parts, others),
        (Formula::Or(parts), Formula::Or(others)) => are_same(parts, others),
        _ => false,
    }
}

#[cycle(same)]
fn are_same(parts: &[Formula], others: &[Formula]) -> bool
    ensures { IsTrue result → map condition_of parts.now ≡ map condition_of others.now }
{
    if parts.len() != others.len() {
        return false;
    }
    for (i, part) in parts.iter().enumerate() {
        if !is_same(part, &others[i]) {
            return false;
        }
    }
    true
}

/// Whether one formula is written as the negation of the other.
#[tactic(auto, using(cond_formula::specs::ConditionLaws::formula_kinds))]
pub fn is_opposite(a: &Formula, b: &Formula) -> bool
    ensures { IsTrue result → (on : ℕ → Bool) → value on (condition_of a.now) ≡ not (value on (condition_of b.now)) }
{
    if let Formula::Not(inner) = a {
        return is_same(inner, b);
    }
    if let Formula::Not(inner) = b {
        return is_same(a, inner);
    }
    false
}

/// Whether the formula is written as one that is never true.
#[tactic(auto, using(cond_formula::specs::ConditionLaws::formula_kinds))]
pub fn is_never(f: &Formula) -> bool
    ensures { IsTrue result → (on : ℕ → Bool) → value on (condition_of f.now) ≡ false }
{
    match f {
        Formula::False => true,
        _ => false,
    }
}

/// Whether the formula is written as one that is always true.
#[tactic(auto, using(cond_formula::specs::ConditionLaws::formula_kinds))]
pub fn is_always(f: &Formula) -> bool
    ensures { IsTrue result → (on : ℕ → Bool) → value on (condition_of f.now) ≡ true }
{
    match f {
        Formula::True => true,
        _ => false,
    }
}
