//! Paths on which an alternative is there.

ghost use Rattle.std.specs.Prelude.{◌≡◌, Bool, ◌&&◌, List, IsTrue, IfOk};
ghost use Rattle.cond_formula.specs.Features.{has};
ghost use Rattle.cond_formula.specs.Conditions.{condition_of, conditions_of, value, all_true};
ghost use Rattle.cond_scopes.specs.Progress.{on_it};

use cond_formula::{Formula, NoMemory, Oracle};
use path_conditions::{Presence, copied, presence_on, with};
use std::alloc::Global;

/// The path that goes on where the condition is true, if there may be such configurations.
pub(crate) fn chosen<O: Oracle>(
    alloc: Global,
    path: &[Formula],
    when: &Formula,
    oracle: &mut O,
) -> Result<Option<Vec<Formula>>, NoMemory>
    ensures kept { O.admits oracle.new ≡ O.admits oracle.old }
    ensures chosen { IfOk result (λ longer. (c : List Bool) → IsTrue (value (has c) (O.admits oracle.old))
        → on_it (has c) longer ≡ (all_true (has c) (conditions_of path.now) && value (has c) (condition_of when.now))) }
{
    match presence_on(alloc, path, when, oracle)? {
        Presence::Absent => Ok(None),
        Presence::Present => Ok(Some(copied(alloc, path)?)),
        Presence::Unsure => Ok(Some(with(alloc, path, when)?)),
    }
}
