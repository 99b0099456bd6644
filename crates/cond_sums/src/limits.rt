//! Where a sum is within a limit.
ghost use Rattle.std.specs.Prelude.{◌≡◌, ◌≤◌, ℕ, Bool, nat_le, ◌&&◌, ◌||◌, not, IsTrue, IfOk};
ghost use Rattle.cond_formula.specs.Conditions.{condition_of, value};
ghost use Rattle.cond_sums.specs.Sums.{sum_of};

use crate::sums::CondPart;
use cond_formula::{Formula, NoMemory};
use reduced_conditions::{both, either, without};
use std::alloc::Global;

/// Whether all parts together are within the limit, so that the sum is in each configuration.
fn are_within(parts: &[CondPart], limit: u32) -> bool
    ensures { IsTrue result → (on : ℕ → Bool) → sum_of on parts.now ≤ limit }
{
    let mut left = limit;
    for part in parts {
        if part.count > left {
            return false;
        }
        left -= part.count;
    }
    true
}

/// Where one of the first two conditions is true, the second only where a third isn't.
fn where_either(
    alloc: Global,
    with_it: Formula,
    without_it: Formula,
    it: &Formula,
) -> Result<Formula, NoMemory>
    ensures { IfOk result (λ f. (on : ℕ → Bool) → value on (condition_of f) ≡ (value on (condition_of with_it) || (value on (condition_of without_it) && not (value on (condition_of it.now))))) }
{
    let elsewhere = without(alloc, without_it, it)?;
    let f = either(alloc, with_it, elsewhere)?;
    Ok(f)
}

/// Where the sum is within the limit. What is within the limit with all parts that may be there is so everywhere; else the first part is there, or
/// it isn't.
#[tactic(auto, using(cond_formula::specs::ConditionLaws::formula_kinds))]
pub(crate) fn where_within(
    alloc: Global,
    parts: &[CondPart],
    limit: u32,
) -> Result<Formula, NoMemory>
    ensures { IfOk result (λ f. (on : ℕ → Bool) → value on (condition_of f) ≡ nat_le (sum_of on parts.now) limit) }
{
    if are_within(parts, limit) {
        return Ok(Formula::True);
    }
    match parts {
        [] => Ok(Formula::True),
        [first, rest @ ..] => {
            let without_it = where_within(alloc, rest, limit)?;
            if first.count > limit {
                let elsewhere = without(alloc, without_it, &first.when)?;
                return Ok(elsewhere);
            }
            let with_it = where_within(alloc, rest, limit - first.count)?;
            let f = where_either(alloc, with_it, without_it, &first.when)?;
            Ok(f)
        }
    }
}
