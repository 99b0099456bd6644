//! Whether a condition is true on a path.

ghost use Rattle.std.specs.Prelude.{◌≡◌, List, Bool, false, IsTrue, IfOk};
ghost use Rattle.cond_formula.specs.Features.{has};
ghost use Rattle.cond_formula.specs.Conditions.{condition_of, conditions_of, value, all_true};
ghost use Rattle.path_conditions.specs.Presences.{IsPresence};

use crate::left::conjoined;
use crate::said::{follows, is_excluded};
use cond_formula::{Formula, May, NoMemory, Oracle};
use std::alloc::Global;

/// What is known of a condition on a path, in the configurations that an oracle admits.
#[derive(Clone, Copy, Debug, PartialEq, Eq)]
pub enum Presence {
    /// It is true everywhere.
    Present,
    /// It is true nowhere.
    Absent,
    Unsure,
}

/// Whether the oracle doesn't say that the formula is nowhere true on the path.
fn may_be<O: Oracle>(
    alloc: Global,
    path: &[Formula],
    f: Formula,
    oracle: &mut O,
) -> Result<bool, NoMemory>
    ensures kept { O.admits oracle.new ≡ O.admits oracle.old }
    ensures no { IfOk result (λ may. may ≡ false → (c : List Bool) → IsTrue (value (has c) (O.admits oracle.old)) →
        IsTrue (all_true (has c) (conditions_of path.now)) → value (has c) (condition_of f) ≡ false) }
{
    let all = Formula::and(alloc, conjoined(alloc, path)?, f)?;
    match oracle.may(&all) {
        May::No => Ok(false),
        May::Maybe => Ok(true),
    }
}

/// Whether a condition is true on the path, by what the path says and by what the oracle knows.
pub fn presence_on<O: Oracle>(
    alloc: Global,
    path: &[Formula],
    when: &Formula,
    oracle: &mut O,
) -> Result<Presence, NoMemory>
    ensures kept { O.admits oracle.new ≡ O.admits oracle.old }
    ensures presence { IfOk result (IsPresence (O.admits oracle.old) path.now (condition_of when.now)) }
{
    if follows(when, path) {
        return Ok(Presence::Present);
    }
    if is_excluded(when, path) {
        return Ok(Presence::Absent);
    }
    if !may_be(alloc, path, when.try_clone(alloc)?, oracle)? {
        return Ok(Presence::Absent);
    }
    let otherwise = Formula::not(alloc, when.try_clone(alloc)?)?;
    if !may_be(alloc, path, otherwise, oracle)? {
        return Ok(Presence::Present);
    }
    Ok(Presence::Unsure)
}
