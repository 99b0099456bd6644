//! Copies of formulas.

ghost use Rattle.std.specs.Prelude.{◌≡◌, map, IfOk};
ghost use Rattle.cond_formula.specs.Conditions.{condition_of};

use crate::NoMemory;
use crate::formulas::Formula;
use std::alloc::Global;

impl Formula {
    /// A formula that says the same.
    #[cycle(copy)]
    #[tactic(auto, using(crate::specs::ConditionLaws::formula_kinds))]
    pub fn try_clone(&self, alloc: Global) -> Result<Formula, NoMemory>
        ensures { IfOk result (λ f. condition_of f ≡ condition_of self.now) }
    {
        match self {
            Formula::True => Ok(Formula::True),
            Formula::False => Ok(Formula::False),
            Formula::Var(feature) => Ok(Formula::Var(*feature)),
            Formula::Not(inner) => Ok(Formula::Not(Box::new(alloc, inner.try_clone(alloc)?)?)),
            Formula::And(parts) => Ok(Formula::And(copied(parts, alloc)?)),
            Formula::Or(parts) => Ok(Formula::Or(copied(parts, alloc)?)),
        }
    }
}

#[cycle(copy)]
fn copied(parts: &[Formula], alloc: Global) -> Result<Vec<Formula>, NoMemory>
    ensures { IfOk result (λ copies. map condition_of copies.items ≡ map condition_of parts.now) }
{
    let mut copies = Vec::with_capacity(alloc, parts.len())?;
    for part in parts {
        copies.push(part.try_clone(alloc)?)?;
    }
    Ok(copies)
}
