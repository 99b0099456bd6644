//! Values under conditions.

ghost use Rattle.std.specs.Prelude.{◌≡◌, ℕ, Bool, IfOk};
ghost use Rattle.cond_formula.specs.Conditions.{condition_of, value};
ghost use Rattle.conditional.specs.Entries.{entries_of, some_holds};

use crate::plain::Plain;
use cond_formula::{Formula, NoMemory};
use reduced_conditions::either_of;
use std::alloc::Global;

/// A value under a condition: it holds in the configurations in which the condition is true.
#[derive(Drop)]
pub struct Guarded<T> {
    pub when: Formula,
    pub what: T,
}

/// The condition under which some entry holds.
pub fn when_some_hold<T: Plain>(alloc: Global, entries: &[Guarded<T>]) -> Result<Formula, NoMemory>
    ensures { IfOk result (λ f. (on : ℕ → Bool) → value on (condition_of f) ≡ some_holds on (entries_of T.form entries.now)) }
{
    let mut some = Formula::False;
    for entry in entries {
        some = either_of(alloc, some, &entry.when)?;
    }
    Ok(some)
}
