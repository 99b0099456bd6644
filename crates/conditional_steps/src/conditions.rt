//! Conditions under which something is refused.
ghost use Rattle.std.specs.Prelude.{◌≡◌, ℕ, Bool, true, false, ◌&&◌, List, IsTrue, IfOk};
ghost use Rattle.cond_formula.specs.Features.{has};
ghost use Rattle.cond_formula.specs.Conditions.{condition_of, value};
ghost use Rattle.conditional.specs.Judgements.{Checked, Shows};
ghost use Rattle.conditional_steps.specs.Here.{is_refused};

use choice_variants::may_hold;
use cond_formula::{Formula, NoMemory, Oracle};
use conditional::{Outcomes, Plain, when_some_hold};
use reduced_conditions::both_of;
use std::alloc::Global;

/// A condition that is never true.
#[tactic(auto, using(cond_formula::specs::ConditionLaws::formula_kinds))]
pub fn never() -> Result<Formula, NoMemory>
    ensures { IfOk result (λ f. (on : ℕ → Bool) → value on (condition_of f) ≡ false) }
{
    Ok(Formula::False)
}

/// Where both conditions are true, in the configurations that there may be.
pub fn possible_both<O: Oracle>(
    alloc: Global,
    oracle: &mut O,
    a: &Formula,
    b: &Formula,
) -> Result<Formula, NoMemory>
    ensures kept { O.admits oracle.new ≡ O.admits oracle.old }
    ensures same { IfOk result (λ f. (c : List Bool) → IsTrue (value (has c) (O.admits oracle.old)) → value (has c) (condition_of f) ≡ (value (has c) (condition_of a.now) && value (has c) (condition_of b.now))) }
{
    let f = both_of(alloc, a, b)?;
    if may_hold(&f, oracle) { Ok(f) } else { never() }
}

/// Where a judgement is refused.
pub fn where_refused<T: Plain, R: Plain>(
    alloc: Global,
    all: &Outcomes<T, R>,
) -> Result<Formula, NoMemory>
    ensures { IfOk result (λ f. (on : ℕ → Bool) (x : Checked T.Form R.Form) → Shows T.form R.form on true x all.now → value on (condition_of f) ≡ is_refused x) }
{
    when_some_hold(alloc, &all.refused.entries)
}
