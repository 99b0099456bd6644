//! Formulas over features.

ghost use Rattle.std.specs.Prelude.{◌≡◌};
ghost use Rattle.cond_formula.specs.Features.{has};
ghost use Rattle.cond_formula.specs.Conditions.{condition_of, conditions_of, value, all_true, any_true};

use crate::NoMemory;
use crate::configuration::Config;
use std::alloc::Global;

/// A formula over features, such as the condition under which a line is present.
#[derive(Drop)]
pub enum Formula {
    True,
    False,
    /// The feature with this number is on. No configuration has a feature from number 128 on.
    Var(u8),
    Not(Box<Formula>),
    /// All of these; true where there are none.
    And(Vec<Formula>),
    /// One of these at least; false where there are none.
    Or(Vec<Formula>),
}

impl Formula {
    /// Whether the formula is true in a configuration.
    #[cycle(value)]
    #[tactic(auto, using(crate::specs::ConditionLaws::formula_kinds))]
    pub fn value(&self, c: Config) -> bool
        ensures { result ≡ value (has c) (condition_of self.now) }
    {
        match self {
            Formula::True => true,
            Formula::False => false,
            Formula::Var(feature) => *feature < 128 && c.has(*feature),
            Formula::Not(inner) => !inner.value(c),
            Formula::And(parts) => all_hold(parts, c),
            Formula::Or(parts) => some_holds(parts, c),
        }
    }
}

#[cycle(value)]
fn all_hold(parts: &[Formula], c: Config) -> bool
    ensures { result ≡ all_true (has c) (conditions_of parts.now) }
{
    for part in parts {
        if !part.value(c) {
            return false;
        }
    }
    true
}

#[cycle(value)]
fn some_holds(parts: &[Formula], c: Config) -> bool
    ensures { result ≡ any_true (has c) (conditions_of parts.now) }
{
    for part in parts {
        if part.value(c) {
            return true;
        }
    }
    false
}
