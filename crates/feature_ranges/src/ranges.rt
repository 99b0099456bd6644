//! Features from a number on, which are off.

ghost use Rattle.std.specs.Prelude.{◌≡◌, ℕ, Bool, All, map, IfOk};
ghost use Rattle.cond_formula.specs.Conditions.{condition_of, value, VarsBelow};
ghost use Rattle.feature_ranges.specs.Ranges.{IsOffFrom};

use cond_formula::{Formula, NoMemory};
use std::alloc::Global;

/// The formula with no feature from this number on; where those are off it says the same.
#[cycle(within)]
#[tactic(auto, using(cond_formula::specs::ConditionLaws::formula_kinds, crate::proofs::RangeLemmas::all_as_values, crate::proofs::RangeLemmas::any_as_values, crate::proofs::RangeLemmas::all_below))]
pub fn within_features(alloc: Global, f: &Formula, features: usize) -> Result<Formula, NoMemory>
    ensures below { IfOk result (λ r. VarsBelow features (condition_of r)) }
    ensures same { IfOk result (λ r. (on : ℕ → Bool) → IsOffFrom features on → value on (condition_of r) ≡ value on (condition_of f.now)) }
{
    match f {
        Formula::True => Ok(Formula::True),
        Formula::False => Ok(Formula::False),
        Formula::Var(feature) => Ok(within_range(*feature, features)),
        Formula::Not(inner) => {
            let inner = within_features(alloc, inner, features)?;
            Ok(Formula::Not(Box::new(alloc, inner)?))
        }
        Formula::And(parts) => Ok(Formula::And(all_within(alloc, parts, features)?)),
        Formula::Or(parts) => Ok(Formula::Or(all_within(alloc, parts, features)?)),
    }
}

// The feature, unless it is off.
#[tactic(auto, using(cond_formula::specs::ConditionLaws::formula_kinds))]
fn within_range(feature: u8, features: usize) -> Formula
    ensures below { VarsBelow features (condition_of result) }
    ensures same { (on : ℕ → Bool) → IsOffFrom features on → value on (condition_of result) ≡ on feature }
{
    if usize::from(feature) < features {
        Formula::Var(feature)
    } else {
        Formula::False
    }
}

#[cycle(within)]
fn all_within(alloc: Global, parts: &[Formula], features: usize) -> Result<Vec<Formula>, NoMemory>
    ensures below { IfOk result (λ all. All (λ f. VarsBelow features (condition_of f)) all.items) }
    ensures same { IfOk result (λ all. (on : ℕ → Bool) → IsOffFrom features on → map (λ f. value on (condition_of f)) all.items ≡ map (λ f. value on (condition_of f)) parts.now) }
{
    let mut all = Vec::with_capacity(alloc, parts.len())?;
    for part in parts {
        all.push(within_features(alloc, part, features)?)?;
    }
    Ok(all)
}
