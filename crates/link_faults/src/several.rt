//! Where there are one and two of something.
ghost use Rattle.std.specs.Prelude.{◌≡◌, ℕ, ◌+◌, nat_le, Bool, IfOk, if◌then◌else◌};
ghost use Rattle.cond_formula.specs.Conditions.{condition_of, value};
ghost use Rattle.link_faults.specs.Several.{Count};

use cond_formula::{Formula, NoMemory};
use reduced_conditions::{both, both_of, either};
use std::alloc::Global;

/// Where there is at least one of something, and where there are at least two.
#[derive(Drop)]
pub(crate) struct Several {
    pub(crate) one: Formula,
    pub(crate) two: Formula,
}

/// There is none anywhere.
#[tactic(auto, using(cond_formula::specs::ConditionLaws::formula_kinds))]
pub(crate) fn none() -> Several
    ensures { (on : ℕ → Bool) → Count on result 0 }
{
    Several {
        one: Formula::False,
        two: Formula::False,
    }
}

/// There is one where the condition is true.
#[tactic(auto, using(cond_formula::specs::ConditionLaws::formula_kinds))]
pub(crate) fn one(when: Formula) -> Several
    ensures { (on : ℕ → Bool) → Count on result (if value on (condition_of when) then 1 else 0) }
{
    Several {
        one: when,
        two: Formula::False,
    }
}

/// There are these where the condition is true.
pub(crate) fn only(alloc: Global, when: Formula, s: Several) -> Result<Several, NoMemory>
    ensures { IfOk result (λ r. (on : ℕ → Bool) (n : ℕ) → Count on s n → Count on r (if value on (condition_of when) then n else 0)) }
{
    let Several { one, two } = s;
    let one = both(alloc, when.try_clone(alloc)?, one)?;
    let two = both(alloc, when, two)?;
    Ok(Several { one, two })
}

/// Two of two kinds, or one of each.
fn two_of(alloc: Global, a: &Several, b: &Several) -> Result<Formula, NoMemory>
    ensures { IfOk result (λ f. (on : ℕ → Bool) (m n : ℕ) → Count on a.now m → Count on b.now n → value on (condition_of f) ≡ nat_le 2 (m + n)) }
{
    let each = both_of(alloc, &a.one, &b.one)?;
    let twice = either(alloc, a.two.try_clone(alloc)?, b.two.try_clone(alloc)?)?;
    let f = either(alloc, twice, each)?;
    Ok(f)
}

/// There are these and those.
pub(crate) fn together(alloc: Global, a: Several, b: Several) -> Result<Several, NoMemory>
    ensures { IfOk result (λ s. (on : ℕ → Bool) (m n : ℕ) → Count on a m → Count on b n → Count on s (m + n)) }
{
    let two = two_of(alloc, &a, &b)?;
    let one = either(alloc, a.one, b.one)?;
    Ok(Several { one, two })
}
