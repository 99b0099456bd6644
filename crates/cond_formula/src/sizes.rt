//! How large formulas are.

ghost use Rattle.std.specs.Prelude.{◌≡◌, ◌+◌, min};
ghost use Rattle.cond_formula.specs.Conditions.{condition_of, conditions_of};
ghost use Rattle.cond_formula.specs.Sizes.{size, size_of_all};

use crate::formulas::Formula;

impl Formula {
    /// How many nodes the formula has; where there are more than a `u64` counts, the greatest `u64`.
    #[cycle(size)]
    #[tactic(auto, using(crate::specs::ConditionLaws::formula_kinds))]
    pub fn size(&self) -> u64
        ensures { result ≡ min (size (condition_of self.now)) 18446744073709551615 }
    {
        match self {
            Formula::True => 1,
            Formula::False => 1,
            Formula::Var(_) => 1,
            Formula::Not(inner) => inner.size().saturating_add(1),
            Formula::And(parts) => size_of_node(parts),
            Formula::Or(parts) => size_of_node(parts),
        }
    }
}

#[cycle(size)]
fn size_of_node(parts: &[Formula]) -> u64
    ensures { result ≡ min (size_of_all (conditions_of parts.now) + 1) 18446744073709551615 }
{
    let mut all: u64 = 1;
    for part in parts {
        all = all.saturating_add(part.size());
    }
    all
}
