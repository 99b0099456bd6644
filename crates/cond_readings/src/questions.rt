//! What is asked of conditions.
ghost use Rattle.std.specs.Prelude.{◌≡◌, Bool, false, List, IsTrue};
ghost use Rattle.cond_formula.specs.Features.{has};
ghost use Rattle.cond_formula.specs.Conditions.{condition_of, value};

use cond_formula::{Formula, May, Oracle};
use reduced_conditions::is_never;

/// Whether no configuration that the oracle admits is known to make the condition true.
pub fn holds_nowhere<O: Oracle>(oracle: &mut O, when: &Formula) -> bool
    ensures kept { O.admits oracle.new ≡ O.admits oracle.old }
    ensures never { IsTrue result → (c : List Bool) → IsTrue (value (has c) (O.admits oracle.old)) → value (has c) (condition_of when.now) ≡ false }
{
    if is_never(when) {
        return true;
    }
    match oracle.may(when) {
        May::No => true,
        May::Maybe => false,
    }
}
