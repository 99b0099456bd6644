//! Which formulas name features alone.

ghost use Rattle.std.specs.Prelude.{IsTrue};
ghost use Rattle.cond_formula.specs.Conditions.{condition_of, conditions_of, VarsBelow, AllVarsBelow};

use cond_formula::Formula;

/// Whether the formula names no feature but the first so many.
#[cycle(ranges)]
#[tactic(auto, using(cond_formula::specs::ConditionLaws::formula_kinds))]
pub(crate) fn is_within(f: &Formula, features: u8) -> bool
    ensures { IsTrue result → VarsBelow features (condition_of f.now) }
{
    match f {
        Formula::True | Formula::False => true,
        Formula::Var(feature) => *feature < features,
        Formula::Not(inner) => is_within(inner, features),
        Formula::And(parts) | Formula::Or(parts) => are_within(parts, features),
    }
}

#[cycle(ranges)]
fn are_within(parts: &[Formula], features: u8) -> bool
    ensures { IsTrue result → AllVarsBelow features (conditions_of parts.now) }
{
    for part in parts {
        if !is_within(part, features) {
            return false;
        }
    }
    true
}
