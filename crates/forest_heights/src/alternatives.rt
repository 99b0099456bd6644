//! What the first alternative that holds says.

ghost use Rattle.std.specs.Prelude.{◌≡◌, ℕ, Bool, ◌&&◌, ◌||◌, IfOk};
ghost use Rattle.cond_formula.specs.Conditions.{condition_of, value};

use cond_formula::{Formula, NoMemory};
use reduced_conditions::{both, either, is_never};
use std::alloc::Global;

/// The formula that says what is known.
#[tactic(auto, using(cond_formula::specs::ConditionLaws::formula_kinds))]
pub fn known(holds: bool) -> Formula
    ensures { (on : ℕ → Bool) → value on (condition_of result) ≡ holds }
{
    if holds { Formula::True } else { Formula::False }
}

/// What was found, and what is said here, where no alternative before this one holds and this one does.
pub fn with_alternative(
    alloc: Global,
    found: Formula,
    left: &Formula,
    when: &Formula,
    here: Formula,
) -> Result<Formula, NoMemory>
    ensures { IfOk result (λ f. (on : ℕ → Bool) → value on (condition_of f)
        ≡ (value on (condition_of found) || (value on (condition_of left.now) && (value on (condition_of when.now) && value on (condition_of here))))) }
{
    if is_never(&here) {
        return Ok(found);
    }
    let said = both(alloc, when.try_clone(alloc)?, here)?;
    let chosen = both(alloc, left.try_clone(alloc)?, said)?;
    let all = either(alloc, found, chosen)?;
    Ok(all)
}

/// What was found, and what is known where no alternative holds.
pub fn with_rest(
    alloc: Global,
    found: Formula,
    left: Formula,
    holds: bool,
) -> Result<Formula, NoMemory>
    ensures { IfOk result (λ f. (on : ℕ → Bool) → value on (condition_of f) ≡ (value on (condition_of found) || (value on (condition_of left) && holds))) }
{
    let rest = both(alloc, left, known(holds))?;
    let all = either(alloc, found, rest)?;
    Ok(all)
}
