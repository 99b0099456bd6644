//! Where a formula may be true.

ghost use Rattle.std.specs.Prelude.{IsTrue, IfSome};
ghost use Rattle.cond_formula.specs.Features.{has};
ghost use Rattle.cond_formula.specs.Conditions.{condition_of, value};
ghost use Rattle.feature_model.specs.ModelView.{admitted};
ghost use Rattle.verdict_query.specs.Verdicts.{where_admitted};

use cond_formula::{Config, Formula};
use feature_model::Model;

/// The configuration in which those features alone are on that a part needs which decides: all parts of a conjunction decide, and
/// the first of a disjunction. The formula is true there unless such parts contradict each other.
pub(crate) fn guess(f: &Formula) -> Config {
    Config {
        bits: needed(f, true),
    }
}

/// An admitted configuration that makes the formula true, if the one that the model and the formula suggest is such: to try it takes
/// one evaluation, and spares the solver most questions that have an answer.
pub fn suggested(model: &Model, f: &Formula) -> Option<Config>
    ensures { IfSome result (λ c. IsTrue (value (has c) (where_admitted (admitted model.now) (condition_of f.now)))) }
{
    let c = Config {
        bits: needed(model.formula(), true) | needed(f, true),
    };
    if model.admits(c) && f.value(c) {
        return Some(c);
    }
    None
}

/// The features that are on where the formula has the value.
#[cycle(needs)]
fn needed(f: &Formula, value: bool) -> u128 {
    match f {
        Formula::True | Formula::False => 0,
        Formula::Var(feature) => needed_feature(*feature, value),
        Formula::Not(inner) => needed(inner, !value),
        Formula::And(parts) => needed_by_parts(parts, value, value),
        Formula::Or(parts) => needed_by_parts(parts, value, !value),
    }
}

fn needed_feature(feature: u8, value: bool) -> u128 {
    if value && feature < 128 {
        return 1 << feature;
    }
    0
}

/// Those of all parts, or of the first.
#[cycle(needs)]
fn needed_by_parts(parts: &[Formula], value: bool, are_all: bool) -> u128 {
    let mut bits = 0;
    for part in parts {
        bits |= needed(part, value);
        if !are_all {
            return bits;
        }
    }
    bits
}
